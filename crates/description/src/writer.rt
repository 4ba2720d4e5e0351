// A text that is written over an output from its front, as far as there is room.
ghost use Rattle.std.specs.Prelude.{◌≡◌, ◌+◌, ◌-◌, ◌*◌, ◌/◌, ◌<◌, ◌≤◌, ◌^◌, length};
ghost use Rattle.texts.specs.Hex.{hex};
ghost use Rattle.texts.specs.Decimal.{decimal, decimal_most};
ghost use Rattle.texts.specs.Base64url.{base64url};
ghost use Rattle.description.specs.Scope.{scope_name, added, scope_names, scope_width, scope_most};
ghost use Rattle.description.specs.Writer.{Wrote};

use super::scope::{Scope, is_set};
use octets::part::put;
use texts::{base64url, decimal, hex};

// The output, and the place that the text has reached; it may be behind the output's end.
#[derive(Drop)]
pub struct Writer<'a> {
    pub out: &'a mut [u8],
    pub at: usize,
}

impl Writer<'_> {
    pub fn text(&mut self, what: &[u8])
        requires { self.old.at + length what.now < 2 ^ 64 }
        ensures { Wrote self.old self.new what.now }
    {
        put(self.out, self.at, what);
        self.at += what.len();
    }

    #[tactic(auto, using(texts::proofs::Hexes::length_hex))]
    pub fn hex(&mut self, bytes: &[u8])
        requires { self.old.at + 2 * length bytes.now < 2 ^ 64 }
        ensures wrote { Wrote self.old self.new (hex bytes.now) }
        ensures sized { self.new.at ≡ self.old.at + 2 * length bytes.now }
    {
        self.at += hex::write(self.out, self.at, bytes);
    }

    #[tactic(auto, using(texts::proofs::Letters::length_base64url))]
    pub fn base64url(&mut self, bytes: &[u8])
        requires { self.old.at + (4 * length bytes.now + 2) / 3 < 2 ^ 64 }
        ensures wrote { Wrote self.old self.new (base64url bytes.now) }
        ensures sized { self.new.at ≡ self.old.at + (4 * length bytes.now + 2) / 3 }
    {
        self.at += base64url::write(self.out, self.at, bytes);
    }

    #[tactic(auto, using(texts::proofs::Decimals::length_decimal))]
    pub fn decimal(&mut self, n: u64)
        requires { self.old.at + decimal_most < 2 ^ 64 }
        ensures wrote { Wrote self.old self.new (decimal n) }
        ensures most { self.new.at ≤ self.old.at + decimal_most }
    {
        self.at += decimal::write(self.out, self.at, n);
    }

    fn name(&mut self, i: u32)
        requires { self.old.at + decimal_most + 1 < 2 ^ 64 }
        ensures { Wrote self.old self.new (scope_name i) }
    {
        self.text(b"s");
        self.decimal(u64::from(i));
    }

    // The name of bit i, where it is set: a blank before it where it is not the first behind a place.
    fn add(&mut self, from: usize, scope: u32, i: u32)
        requires { (from ≤ self.old.at) × (self.old.at + decimal_most + 2 < 2 ^ 64) × (i < scope_width) }
        ensures { Wrote self.old self.new (added scope (self.old.at - from) i) }
    {
        if !is_set(scope, i) {
            return;
        }
        if self.at != from {
            self.text(b" ");
        }
        self.name(i);
    }

    // The names of a scope.
    pub fn scope(&mut self, scope: u32)
        requires { self.old.at + scope_most + decimal_most + 2 < 2 ^ 64 }
        ensures wrote { Wrote self.old self.new (scope_names scope) }
        ensures most { self.new.at ≤ self.old.at + scope_most }
    {
        let from = self.at;
        for i in 0..Scope::WIDTH {
            self.add(from, scope, i);
        }
    }
}
