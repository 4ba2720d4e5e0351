// Forms: whether a redirect, a challenge or a verifier is well formed (document 01, section "Ledger", last paragraph). It rests on octets.
// Each check takes any slice and answers a Form, which a caller takes apart by let else. The ledger's soundness and the checks of push and token call it.
#![tactic(auto)]

ghost use Rattle.std.specs.Prelude.{◌≡◌};
ghost use Rattle.forms.specs.Limits.{redirect_least, redirect_most, challenge_length, verifier_least, verifier_most};
ghost use Rattle.forms.specs.Forms.{form_if, redirect_form, challenge_form, verifier_form};

mod class;

// An enum: document 01 has each check's answer taken apart by let else, and the case says what was found.
#[derive(Clone, Copy)]
pub enum Form {
    Well,
    Ill,
}

impl Form {
    // No From<bool>: a name has to say which way it goes.
    fn of(well: bool) -> Form
        ensures { result ≡ form_if well }
    {
        if well { Form::Well } else { Form::Ill }
    }
}

#[derive(Clone, Copy)]
pub struct Redirect {}

impl Redirect {
    pub const LEAST: usize = 9;

    pub const MOST: usize = 64;

    // least, most and length, of each kind, public with a promise each: the limits that the definitions have are the code's.
    pub fn least() -> usize
        ensures { result ≡ redirect_least }
    {
        Redirect::LEAST
    }

    pub fn most() -> usize
        ensures { result ≡ redirect_most }
    {
        Redirect::MOST
    }

    #[tactic(auto, using(octets::proofs::Ranges::contains_is, crate::proofs::Passing::starts_so), unfolding(crate::specs::Forms::redirect_form, crate::specs::Forms::redirect_formed))]
    pub fn check(s: &[u8]) -> Form
        ensures { result ≡ redirect_form s.now }
    {
        let sized = (Redirect::LEAST..=Redirect::MOST).contains(&s.len());
        Form::of(sized && s.starts_with(b"https://") && class::all(s, class::visible))
    }
}

#[derive(Clone, Copy)]
pub struct Challenge {}

impl Challenge {
    pub const LENGTH: usize = 43;

    pub fn length() -> usize
        ensures { result ≡ challenge_length }
    {
        Challenge::LENGTH
    }

    #[tactic(auto, unfolding(crate::specs::Forms::challenge_form, crate::specs::Forms::challenge_formed))]
    pub fn check(s: &[u8]) -> Form
        ensures { result ≡ challenge_form s.now }
    {
        Form::of(s.len() == Challenge::LENGTH && class::all(s, class::url_safe))
    }
}

#[derive(Clone, Copy)]
pub struct Verifier {}

impl Verifier {
    pub const LEAST: usize = 43;

    pub const MOST: usize = 128;

    pub fn least() -> usize
        ensures { result ≡ verifier_least }
    {
        Verifier::LEAST
    }

    pub fn most() -> usize
        ensures { result ≡ verifier_most }
    {
        Verifier::MOST
    }

    #[tactic(auto, using(octets::proofs::Ranges::contains_is), unfolding(crate::specs::Forms::verifier_form, crate::specs::Forms::verifier_formed))]
    pub fn check(s: &[u8]) -> Form
        ensures { result ≡ verifier_form s.now }
    {
        let sized = (Verifier::LEAST..=Verifier::MOST).contains(&s.len());
        Form::of(sized && class::all(s, class::unreserved))
    }
}
