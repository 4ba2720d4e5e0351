// The texts of a message's digest: in lower-case hexadecimal, and in base64url as a challenge is.
ghost use Rattle.std.specs.Prelude.{◌≡◌};
ghost use Rattle.sha256.specs.Hash.{sha256};
ghost use Rattle.texts.specs.Base64url.{base64url};
ghost use Rattle.texts.specs.Hex.{hex};

#[derive(Clone, Copy)]
pub struct Digest {}

impl Digest {
    pub const SIZE: usize = 32;

    pub const HEX: usize = 64;

    pub const TEXT: usize = 43;
}

fn hex(digest: [u8; Digest::SIZE]) -> [u8; Digest::HEX]
    ensures { result ≡ hex digest }
{
    let mut text = [0u8; Digest::HEX];
    texts::hex::write(&mut text, 0, &digest);
    text
}

pub fn digest_hex(m: &[u8]) -> [u8; Digest::HEX]
    ensures { result ≡ hex (sha256 m.now) }
{
    hex(sha256::digest(m))
}

pub fn digest_text(m: &[u8]) -> [u8; Digest::TEXT]
    ensures { result ≡ base64url (sha256 m.now) }
{
    s256::base64url::base64url(sha256::digest(m))
}
