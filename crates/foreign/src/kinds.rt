// Kinds of codes by their numbers.
ghost use Rattle.std.specs.Prelude.{◌≡◌};
ghost use Rattle.std.specs.Option.{ok_or};
ghost use Rattle.foreign.specs.declared.not_done.NotDone.TheVariants.{NoSuchCode};
ghost use Rattle.foreign.specs.Kinds.{kind_of};

use crate::not_done::NotDone;

// How a code is made from a graph.
#[derive(Clone, Copy)]
pub(crate) enum Shape {
    Product,
    Exchanged,
    ExchangedTwice,
    Bare,
    BareExchanged,
    TurnedProduct,
}

// What the bytes of a code are: a graph file, a cyclic graph, or rows that are written out.
#[derive(Clone, Copy)]
pub(crate) enum Kind {
    File(Shape),
    Cyclic,
    Written,
}

impl TryFrom<u32> for Kind {
    type Error = NotDone;

    ghost try_from_gives = { λ n r. r ≡ ok_or (kind_of n) NoSuchCode };

    fn try_from(number: u32) -> Result<Kind, NotDone> {
        match u8::try_from(number) {
            Ok(b'P') => Ok(Kind::File(Shape::Product)),
            Ok(b'E') => Ok(Kind::File(Shape::Exchanged)),
            Ok(b'X') => Ok(Kind::File(Shape::ExchangedTwice)),
            Ok(b'B') => Ok(Kind::File(Shape::Bare)),
            Ok(b'e') => Ok(Kind::File(Shape::BareExchanged)),
            Ok(b'T') => Ok(Kind::File(Shape::TurnedProduct)),
            Ok(b'C') => Ok(Kind::Cyclic),
            Ok(b'W') => Ok(Kind::Written),
            _ => Err(NotDone::NoSuchCode),
        }
    }
}
