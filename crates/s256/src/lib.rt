// S256: the text of a digest in base64url, and the rule by which a verifier matches a challenge (document 01, section "The calls, with checks in order", verification at 16).
// It rests on sha256 for the digest, on texts for its text, on octets for the comparison, and its laws on forms: every text is a well-formed challenge.
// Token's check 16 calls it.
#![tactic(auto)]

ghost use Rattle.std.specs.Prelude.{◌≡◌};
ghost use Rattle.s256.specs.Rule.{matching};

pub mod base64url;

// An enum: document 01 has each check's answer taken apart by let else, and the case says what was found.
#[derive(Clone, Copy)]
pub enum Match {
    Same,
    Differs,
}

#[tactic(auto, unfolding(crate::specs::Rule::matching, crate::specs::Rule::matches))]
pub fn matches(verifier: &[u8], challenge: &[u8]) -> Match
    ensures { result ≡ matching verifier.now challenge.now }
{
    let text = base64url::base64url(sha256::digest(verifier));
    if octets::part::same(&text, challenge) {
        Match::Same
    } else {
        Match::Differs
    }
}
