// The holder's choice, as the byte that C hands in: nothing but YES consents.
ghost use Rattle.std.specs.Prelude.{◌≡◌};
ghost use Rattle.front.specs.Consent.{consents};

#[derive(Clone, Copy)]
pub struct Choice {}

impl Choice {
    pub const YES: u8 = 1;

    pub fn consents(yes: u8) -> bool
        ensures { result ≡ consents yes }
    {
        yes == Choice::YES
    }
}
