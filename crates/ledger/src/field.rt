// Where the fields of the head and of a record are.
use octets::span::Span;

#[derive(Clone, Copy)]
pub struct Head {}

impl Head {
    pub const CLOCK: Span = Span { place: 0, width: 8 };

    pub const NEXT: Span = Span { place: 8, width: 8 };

    pub const ZERO: Span = Span {
        place: 16,
        width: 16,
    };
}

#[derive(Clone, Copy)]
pub struct Field {}

impl Field {
    pub const STATE: Span = Span { place: 0, width: 1 };

    pub const LENGTH: Span = Span { place: 1, width: 1 };

    pub const GAP_ONE: Span = Span { place: 2, width: 2 };

    pub const SCOPE: Span = Span { place: 4, width: 4 };

    pub const GRANT: Span = Span { place: 8, width: 8 };

    pub const EXPIRY: Span = Span {
        place: 16,
        width: 8,
    };

    pub const HOLDER: Span = Span {
        place: 24,
        width: 8,
    };

    pub const CLIENT: Span = Span {
        place: 32,
        width: 16,
    };

    pub const CHALLENGE: Span = Span {
        place: 48,
        width: 43,
    };

    pub const GAP_TWO: Span = Span {
        place: 91,
        width: 5,
    };

    pub const VALUE: Span = Span {
        place: 96,
        width: 32,
    };

    pub const TOKEN: Span = Span {
        place: 128,
        width: 32,
    };

    pub const KEY: Span = Span {
        place: 160,
        width: 32,
    };

    pub const REDIRECT: Span = Span {
        place: 192,
        width: 64,
    };
}
