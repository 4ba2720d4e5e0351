// The text of a digest.
ghost use Rattle.std.specs.Prelude.{◌≡◌};
ghost use Rattle.texts.specs.Base64url.{base64url};

use forms::Challenge;

pub fn base64url(bs: [u8; 32]) -> [u8; Challenge::LENGTH]
    ensures { result ≡ base64url bs }
{
    let mut text = [0u8; Challenge::LENGTH];
    texts::base64url::write(&mut text, 0, &bs);
    text
}
