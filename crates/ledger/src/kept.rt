//! The ledger: its book, with the facts that every book keeps, one each.
ghost use Rattle.calendar.specs.Form.{IsInForm};
ghost use Rattle.ledger.specs.Form.{Sized, Shaped, Wide, Lined, Booked, Firm, Within, Whole, Priced, Dated, month_of};

use crate::state::Book;

/// The ledger of one delivery year.
#[derive(Drop)]
pub struct Ledger {
    pub(crate) book: Book,
    ghost formed: { IsInForm book.calendar },
    ghost sized: { Sized book },
    ghost shaped: { Shaped book },
    ghost wide: { Wide book.trade },
    ghost lined: { Lined book },
    ghost booked: { Booked book },
    ghost firm: { Firm book.register },
    ghost within: { Within book },
    ghost whole: { Whole book.trade },
    ghost priced: { Priced book.trade },
    ghost dated: { Dated (month_of book.stage) },
}
