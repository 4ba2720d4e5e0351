// One record, by its state: free and all zeros, or in use with every field as its state wants it.
ghost use Rattle.std.specs.Prelude.{◌≡◌};
ghost use Rattle.ledger.specs.Sound.{redirect_sound, numbers_sound, bytes_sound, used_sound, no_token, some_token, sound_in, record_sound};

use forms::{Challenge, Form, Redirect};
use ledger::field::Field;
use ledger::limit::Expiry;
use ledger::record::{
    Record, bound_key, challenge, client, expiry, grant, holder, redirect_field, redirect_length,
    scope, token, value,
};
use ledger::state::State;
use octets::part::{cut, from, is_zero};

#[tactic(auto, using(octets::proofs::Ranges::contains_is, forms::proofs::Laws::redirect_well, forms::proofs::Laws::redirect_ill))]
fn is_redirect_sound(r: &Record) -> bool
    ensures { result ≡ redirect_sound r.now }
{
    let n = usize::from(redirect_length(r));
    if !(Redirect::LEAST..=Redirect::MOST).contains(&n) {
        return false;
    }
    let Form::Well = Redirect::check(cut(r, Field::REDIRECT.place, n)) else {
        return false;
    };
    is_zero(from(redirect_field(r), n))
}

#[tactic(auto, unfolding(ledger::specs::Sound::numbers_sound))]
fn is_numbers_sound(r: &Record, next: u64) -> bool
    ensures { result ≡ numbers_sound next r.now }
{
    is_zero(Field::GAP_ONE.of(r))
        && is_zero(Field::GAP_TWO.of(r))
        && (1..next).contains(&grant(r))
        && scope(r) != 0
        && expiry(r) < Expiry::LIMIT
}

#[tactic(auto, using(forms::proofs::Laws::challenge_well, forms::proofs::Laws::challenge_ill), unfolding(ledger::specs::Sound::bytes_sound))]
fn is_bytes_sound(r: &Record) -> bool
    ensures { result ≡ bytes_sound r.now }
{
    if is_zero(client(r)) || is_zero(value(r)) {
        return false;
    }
    let Form::Well = Challenge::check(challenge(r)) else {
        return false;
    };
    is_redirect_sound(r)
}

// The rules of every state but free.
#[tactic(auto, unfolding(ledger::specs::Sound::used_sound))]
fn is_used_sound(r: &Record, next: u64) -> bool
    ensures { result ≡ used_sound next r.now }
{
    is_numbers_sound(r, next) && is_bytes_sound(r)
}

// Two, of one line each: document 01 has a sentence for either, and so has specs/.
#[tactic(auto, unfolding(ledger::specs::Sound::no_token))]
fn has_no_token(r: &Record) -> bool
    ensures { result ≡ no_token r.now }
{
    is_zero(token(r)) && is_zero(bound_key(r))
}

#[tactic(auto, unfolding(ledger::specs::Sound::some_token))]
fn has_token(r: &Record) -> bool
    ensures { result ≡ some_token r.now }
{
    !is_zero(token(r)) && !is_zero(bound_key(r))
}

fn is_sound_in(state: State, r: &Record, next: u64) -> bool
    ensures { result ≡ sound_in state next r.now }
{
    match state {
        State::Free => is_zero(r),
        State::Pushed => is_used_sound(r, next) && holder(r) == 0 && has_no_token(r),
        State::Consented => is_used_sound(r, next) && holder(r) != 0 && has_no_token(r),
        State::Redeemed => is_used_sound(r, next) && holder(r) != 0 && has_token(r),
    }
}

#[tactic(auto, unfolding(ledger::specs::Sound::record_sound))]
pub fn is_record_sound(r: &Record, next: u64) -> bool
    ensures { result ≡ record_sound next r.now }
{
    let Some(state) = State::of(r) else {
        return false;
    };
    is_sound_in(state, r, next)
}
