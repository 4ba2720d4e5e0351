// The answers as C reads them: the desk's, field by field and in the same order. They are types of their own beside the desk's since repr(C) is the C
// interface's.
ghost use Rattle.std.specs.Prelude.{◌≡◌};
ghost use Rattle.front.specs.Seen.{as_answer, as_decided, as_swept, as_introspected};

#[repr(C)]
#[derive(Clone, Copy)]
pub struct Answer {
    pub number: u8,
    pub grant: u64,
    pub holder: u64,
    pub scope: u32,
    pub expiry: u64,
}

impl From<desk::answer::Answer> for Answer {
    ghost from_gives = { λ a answer. as_answer answer ≡ a };

    fn from(a: desk::answer::Answer) -> Answer {
        Answer {
            number: a.number,
            grant: a.grant,
            holder: a.holder,
            scope: a.scope,
            expiry: a.expiry,
        }
    }
}

#[repr(C)]
#[derive(Clone, Copy)]
pub struct Decided {
    pub answer: Answer,
    pub length: u8,
}

impl From<desk::answer::Decided> for Decided {
    ghost from_gives = { λ d decided. as_decided decided ≡ d };

    fn from(d: desk::answer::Decided) -> Decided {
        Decided {
            answer: d.answer.into(),
            length: d.length,
        }
    }
}

#[repr(C)]
#[derive(Clone, Copy)]
pub struct Swept {
    pub number: u8,
    pub pushed: usize,
    pub consented: usize,
    pub redeemed: usize,
}

impl From<desk::answer::Swept> for Swept {
    ghost from_gives = { λ s swept. as_swept swept ≡ s };

    fn from(s: desk::answer::Swept) -> Swept {
        Swept {
            number: s.number,
            pushed: s.pushed,
            consented: s.consented,
            redeemed: s.redeemed,
        }
    }
}

#[repr(C)]
#[derive(Clone, Copy)]
pub struct Introspected {
    pub number: u8,
    pub length: usize,
}

impl From<desk::answer::Introspected> for Introspected {
    ghost from_gives = { λ i introspected. as_introspected introspected ≡ i };

    fn from(i: desk::answer::Introspected) -> Introspected {
        Introspected {
            number: i.number,
            length: i.length,
        }
    }
}
