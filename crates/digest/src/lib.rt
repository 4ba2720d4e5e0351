// Digest: SHA-256 exported to C, so that bench/ can measure it beside others. It rests on sha256 and is no part of the front's doorway.
#![tactic(auto)]

ghost use Rattle.std.specs.Prelude.{◌≡◌};
ghost use Rattle.sha256.specs.Hash.{sha256};

#[repr(C)]
#[derive(Clone, Copy)]
pub struct Digest {
    pub bytes: [u8; 32],
}

#[unsafe(no_mangle)]
pub extern "C" fn perdigolh_digest(message: &[u8]) -> Digest
    ensures { result.bytes ≡ sha256 message.now }
{
    Digest {
        bytes: sha256::digest(message),
    }
}
