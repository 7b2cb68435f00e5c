// Places of rows and messages in lists that rise.
ghost use Rattle.std.specs.Prelude.{◌≡◌, ◌<◌, false, length, true};
ghost use Rattle.bs_log.specs.Rising.{IsLower};
ghost use Rattle.bs_log.specs.Lists.{Mem, InOrder};
ghost use Rattle.bs_line.specs.Places.{mail_place as mail_place_of, row_place as row_place_of};

use bs_log::MailRef;

// The place of a message among messages, found by halving.
pub(crate) fn mail_place(mails: &[MailRef], mail: MailRef) -> usize
    requires rises { InOrder IsLower mails.now }
    requires among { Mem mail mails.now }
    ensures place { result ≡ mail_place_of mails.now mail }
    ensures within { result < length mails.now }
{
    let mut low = 0;
    let mut high = mails.len();
    while low + 1 < high {
        let middle = low + (high - low) / 2;
        if is_lower(mail, mails[middle]) {
            high = middle;
        } else {
            low = middle;
        }
    }
    low
}

// Whether a message comes before another one in the order of (row, index).
fn is_lower(a: MailRef, b: MailRef) -> bool
    ensures yes { result ≡ true → IsLower a b }
    ensures no { result ≡ false → IsLower a b → ⊥ }
{
    a.row < b.row || (a.row == b.row && a.index < b.index)
}

// The place of a row among rows, found by halving.
pub(crate) fn row_place(rows: &[u32], row: u32) -> usize
    requires rises { InOrder (λ i j. i < j) rows.now }
    requires among { Mem row rows.now }
    ensures place { result ≡ row_place_of rows.now row }
    ensures within { result < length rows.now }
{
    let mut low = 0;
    let mut high = rows.len();
    while low + 1 < high {
        let middle = low + (high - low) / 2;
        if row < rows[middle] {
            high = middle;
        } else {
            low = middle;
        }
    }
    low
}
