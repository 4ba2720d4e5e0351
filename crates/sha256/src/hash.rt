// The hash value of a whole message (FIPS 180-4, section 6.2.2), and its bytes.
ghost use Rattle.std.specs.Prelude.{◌≡◌, ◌/◌, length};
ghost use Rattle.sha256.specs.Hash.{hash_value, joined};
ghost use Rattle.sha256.specs.Pad.{pad, blocks};

use super::compress::{INITIAL, compress};
use super::pad::{block, blocks};

// After the blocks that hold nothing but the message, which are read where they stand.
#[tactic(auto, using(crate::proofs::Digests::hash_more, crate::proofs::Padding::chunk_block), unfolding(crate::specs::Hash::hash_value))]
fn whole(m: &[u8]) -> [u32; 8]
    ensures { result ≡ hash_value (pad m.now) (length m.now / 64) }
{
    let mut h = INITIAL;
    for b in m.as_chunks::<64>().0 {
        h = compress(&h, b);
    }
    h
}

// After all blocks: the last one or two hold the padding.
#[tactic(auto, using(crate::proofs::Digests::hash_more, crate::proofs::Padding::blocks_of))]
pub fn hash(m: &[u8]) -> [u32; 8]
    ensures { result ≡ hash_value (pad m.now) (blocks m.now) }
{
    let mut h = whole(m);
    for k in m.len() / 64..blocks(m) {
        h = compress(&h, &block(m, k));
    }
    h
}

#[tactic(auto, using(crate::proofs::Digests::joined_be))]
pub fn joined(ws: [u32; 8]) -> [u8; 32]
    ensures { result ≡ joined ws }
{
    let mut bytes = [0u8; 32];
    bytes.copy_from_slice(ws.map(u32::to_be_bytes).as_flattened());
    bytes
}
