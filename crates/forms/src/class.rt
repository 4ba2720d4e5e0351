// Classes of bytes. No test and no fold here leaves early: what is checked is short and nearly always well formed, so a branch would only cost.
ghost use Rattle.std.specs.Prelude.{◌≡◌, ℕ, Bool};
ghost use Rattle.octets.specs.Lists.{every, Computes};
ghost use Rattle.forms.specs.Forms.{visible, url_safe, unreserved};

#[tactic(auto, unfolding(crate::specs::Forms::visible))]
pub fn visible(x: u8) -> bool
    ensures { result ≡ visible x }
{
    x.is_ascii_graphic()
}

#[tactic(auto, unfolding(crate::specs::Forms::url_safe))]
pub fn url_safe(x: u8) -> bool
    ensures { result ≡ url_safe x }
{
    x.is_ascii_alphabetic() | x.is_ascii_digit() | (x == b'-') | (x == b'_')
}

#[tactic(auto, unfolding(crate::specs::Forms::unreserved))]
pub fn unreserved(x: u8) -> bool
    ensures { result ≡ unreserved x }
{
    url_safe(x) | (x == b'.') | (x == b'~')
}

// Whether every byte is of the class.
pub fn all<F: Fn(u8) -> bool>(s: &[u8], class: F) -> bool
    requires { F.IsAlwaysCallable class }
    ensures { (q : ℕ → Bool) → Computes (F.post class) q → result ≡ every q s.now }
{
    s.iter().fold(true, |ok, &x| ok & class(x))
}
