// What a reply has of a refusal: a number and a place, whatever they are.
ghost use Rattle.std.specs.Prelude.{◌≡◌, ℕ};
ghost use Rattle.refusals.specs.Refusal.{number_of, place_of};
ghost use Rattle.replies.specs.Refused.{refused_of};

use refusals::Refusal;

// A refusal that has a number and a place.
pub trait Numbered: Copy {
    ghost number: { Self → ℕ };

    ghost place: { Self → ℕ };

    fn number(self) -> usize
        ensures { result ≡ number self };

    fn place(self) -> usize
        ensures { result ≡ place self };
}

impl Numbered for Refusal {
    ghost number = { number_of };

    ghost place = { place_of };

    fn number(self) -> usize {
        Refusal::number(self)
    }

    fn place(self) -> usize {
        Refusal::place(self)
    }
}

// A refusal of any number and any place.
#[derive(Clone, Copy, Debug, PartialEq, Eq)]
pub struct Refused {
    pub number: usize,
    pub place: usize,
}

impl From<Refusal> for Refused {
    ghost from_gives = { λ refusal r. r ≡ refused_of refusal };

    fn from(refusal: Refusal) -> Refused {
        Refused {
            number: refusal.number(),
            place: refusal.place(),
        }
    }
}

impl Numbered for Refused {
    ghost number = { λ r. r.number };

    ghost place = { λ r. r.place };

    fn number(self) -> usize {
        self.number
    }

    fn place(self) -> usize {
        self.place
    }
}
