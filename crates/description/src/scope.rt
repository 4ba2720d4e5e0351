// The bits of a scope.
ghost use Rattle.std.specs.Prelude.{◌≡◌, ◌<◌};
ghost use Rattle.description.specs.Scope.{is_set, scope_width};

#[derive(Clone, Copy)]
pub struct Scope {}

impl Scope {
    // How many bits a scope has.
    pub const WIDTH: u32 = 32;

    // As the functions beside public constants: it ties this one to its definition.
    pub fn width() -> u32
        ensures { result ≡ scope_width }
    {
        Scope::WIDTH
    }
}

#[tactic(auto, unfolding(crate::specs::Scope::is_set))]
pub fn is_set(scope: u32, i: u32) -> bool
    requires { i < scope_width }
    ensures { result ≡ is_set scope i }
{
    (scope >> i) % 2 == 1
}
