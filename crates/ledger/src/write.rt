// What a call writes to the record that it is lent: every field that it names, and no other byte.
ghost use Rattle.std.specs.Prelude.{◌≡◌, length};
ghost use Rattle.ledger.specs.Fields.{with_state, with_redirect_length, with_scope, with_grant, with_expiry, with_client, with_challenge, with_value, with_redirect};
ghost use Rattle.ledger.specs.Write.{pushed, consented, redeemed};

use super::field::Field;
use super::state::State;
use octets::number::Number;

fn set_state(r: &mut [u8], s: State)
    ensures { r.new ≡ with_state s r.old }
{
    Field::STATE.put(r, &[u8::from(s)]);
}

// What a push enters in its record.
#[derive(Clone, Copy)]
pub struct Push<'a> {
    pub scope: u32,
    pub grant: u64,
    pub expiry: u64,
    pub client: &'a [u8; 16],
    pub challenge: &'a [u8],
    pub fresh: &'a [u8; 32],
    pub redirect: &'a [u8],
}

// What a push leaves behind its numbers: who may decide, redeem and be sent back, and by which reference.
fn set_parties(r: &mut [u8], push: Push)
    ensures { r.new ≡ with_redirect push.entry.redirect.now (with_value push.entry.fresh.now (with_challenge push.entry.challenge.now (with_client push.entry.client.now r.old))) }
{
    let Push {
        client,
        challenge,
        fresh,
        redirect,
        ..
    } = push;
    Field::CLIENT.put(r, client);
    Field::CHALLENGE.put(r, challenge);
    Field::VALUE.put(r, fresh);
    Field::REDIRECT.put(r, redirect);
}

// A push's numbers, with the redirect's length, which is below 256 where the redirect is well formed.
#[tactic(auto, unfolding(octets::specs::Numbers::digits))]
fn set_numbers(r: &mut [u8], push: Push)
    ensures { r.new ≡ with_expiry push.entry.expiry (with_grant push.entry.grant (with_scope push.entry.scope (with_redirect_length (length push.entry.redirect.now) r.old))) }
{
    Field::LENGTH.put(r, &[(push.redirect.len() % 256) as u8]);
    Field::SCOPE.put(r, &push.scope.bytes());
    Field::GRANT.put(r, &push.grant.bytes());
    Field::EXPIRY.put(r, &push.expiry.bytes());
}

#[tactic(auto, unfolding(crate::specs::Write::pushed))]
pub fn pushed(r: &mut [u8], push: Push)
    ensures { r.new ≡ pushed push.entry.scope push.entry.grant push.entry.expiry push.entry.client.now push.entry.challenge.now push.entry.fresh.now push.entry.redirect.now r.old }
{
    set_state(r, State::Pushed);
    set_numbers(r, push);
    set_parties(r, push);
}

#[tactic(auto, unfolding(crate::specs::Write::consented))]
pub fn consented(r: &mut [u8], expiry: u64, holder: u64, fresh: &[u8; 32])
    ensures { r.new ≡ consented expiry holder fresh.now r.old }
{
    set_state(r, State::Consented);
    Field::EXPIRY.put(r, &expiry.bytes());
    Field::HOLDER.put(r, &holder.bytes());
    Field::VALUE.put(r, fresh);
}

#[tactic(auto, unfolding(crate::specs::Write::redeemed))]
pub fn redeemed(r: &mut [u8], expiry: u64, fresh: &[u8; 32], key: &[u8; 32])
    ensures { r.new ≡ redeemed expiry fresh.now key.now r.old }
{
    set_state(r, State::Redeemed);
    Field::EXPIRY.put(r, &expiry.bytes());
    Field::TOKEN.put(r, fresh);
    Field::KEY.put(r, key);
}
