// The state of a record: the number of each, and the one place where a state byte is taken apart.
ghost use Rattle.std.specs.Prelude.{◌≡◌};
ghost use Rattle.ledger.specs.Fields.{state, state_number, state_of, in_state};

use super::field::Field;

#[derive(Clone, Copy)]
pub enum State {
    Free = 0,
    Pushed = 1,
    Consented = 2,
    Redeemed = 3,
}

impl From<State> for u8 {
    ghost from_gives = { λ s number. number ≡ state_number s };

    fn from(s: State) -> u8 {
        s as u8
    }
}

impl State {
    // What the state byte says, where there is such a state. No TryFrom: a record is read, which may have no byte, and there is no error to tell.
    pub fn of(r: &[u8]) -> Option<State>
        ensures { result ≡ state_of r.now }
    {
        match byte(r) {
            0 => Some(State::Free),
            1 => Some(State::Pushed),
            2 => Some(State::Consented),
            3 => Some(State::Redeemed),
            _ => None,
        }
    }
}

fn byte(r: &[u8]) -> u8
    ensures { result ≡ state r.now }
{
    r.get(Field::STATE.place).copied().unwrap_or(0)
}

// Whether the record is in this state.
pub fn is_in(r: &[u8], s: State) -> bool
    ensures { result ≡ in_state s r.now }
{
    byte(r) == u8::from(s)
}
