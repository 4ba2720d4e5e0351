// A text that a rule tells character by character, over an output.
ghost use Rattle.std.specs.Prelude.{◌≡◌, ◌<◌, ℕ, List, length, get_or};
ghost use Rattle.octets.specs.Parts.{put};
ghost use Rattle.texts.specs.Spelling.{Spells};

// Every place gets the character that the rule answers for it.
fn fill<F: Fn(usize) -> u8>(out: &mut [u8], rule: F)
    requires { (i : ℕ) → i < length out.old → F.pre rule i }
    ensures sized { length out.new ≡ length out.old }
    ensures told { (i : ℕ) → i < length out.old → F.post rule i (get_or out.new i 0) }
{
    for (i, to) in out.iter_mut().enumerate() {
        *to = rule(i);
    }
}

// The n characters of a text, over the output from a place on, as far as there is room.
pub fn lay<F: Fn(usize) -> u8>(out: &mut [u8], at: usize, n: usize, rule: F)
    requires { (i : ℕ) → i < n → F.pre rule i }
    ensures { (text : List ℕ) → Spells (F.post rule) n text → out.new ≡ put out.old at text }
{
    if at < out.len() {
        let room = out.len() - at;
        fill(&mut out[at..at + n.min(room)], rule);
    }
}
