//! A cell's last value, when its publisher has all readers and nobody has an owner.
ghost use Rattle.std.specs.Prelude.{◌≡◌, ◌≢◌, [], ◌∷◌, vec_len, None, IfOk, IfErr};
ghost use Rattle.std.specs.Vec.{vec_capacity};
ghost use Rattle.std.specs.List.{All};
ghost use Rattle.counted_handles.specs.Calls.{Fits, IsLike, IsLastValue};
ghost use Rattle.counted_handles.specs.declared.view.Publishing.{Publishing};
ghost use Rattle.counted_handles.specs.declared.view.View.TheVariants.{Gone};
ghost use Rattle.snapshot_cell.specs.Tokens.{IsClosing};

use crate::tokens::{Publisher, Reader};
use atomic_table::Badge;
use counted_handles::{InUse, Names, View, Words, end, give_back, take_in};

// The publisher takes these readers in, which are all that are about, and ends the cell: the value published last. [`InUse`]
// where a load has shown that somebody has a version: the readers are then as they were.
fn end_readers<T, C: Names<T>>(
    words: &Words<T, C>,
    badge: &mut Badge<View<T>>,
    readers: &mut Vec<Reader<T>>,
) -> Result<T, InUse>
    requires fits { Fits words.now.table_id × (badge.old.table_id ≡ words.now.table_id) × (badge.old.id ≡ 0) }
    requires cells { All (λ r. r.cell ≡ words.now.table_id) readers.old.items }
    requires closing { (p : Publishing T) × IsClosing p (vec_len readers.old) badge.old.views × (p.name ≡ words.now.table_id.views_name) }
    ensures badge { (badge.new.table_id ≡ badge.old.table_id) × (badge.new.id ≡ badge.old.id) }
    ensures ended { IfOk result (λ value. (p : Publishing T) → IsClosing p (vec_len readers.old) badge.old.views → IsLastValue p.published value × (badge.new.views ≡ Gone ∷ [])) }
    ensures in_use { IfErr result (λ _. (p : Publishing T) → IsClosing p (vec_len readers.old) badge.old.views → IsLike p badge.new.views × (readers.new.items ≡ readers.old.items)) }
    ensures room { vec_capacity readers.new ≡ vec_capacity readers.old }
{
    let Some(reader) = readers.pop() else {
        return end(words, badge);
    };
    let Reader { badge: guest, left } = reader;
    take_in(words, badge, guest);
    match end_readers(words, badge, readers) {
        Ok(value) => Ok(value),
        Err(in_use) => {
            let badge = give_back(words, badge);
            readers.push_reserved(Reader { badge, left });
            Err(in_use)
        }
    }
}

// The same for the publisher's token: the value, with what is left of the token.
pub(crate) fn end_all<T, C: Names<T>>(
    words: &Words<T, C>,
    publisher: Publisher<T, C>,
    readers: &mut Vec<Reader<T>>,
) -> Result<(T, Badge<View<T>>), (Publisher<T, C>, Option<InUse>)>
    requires fits { Fits words.now.table_id × (publisher.cell ≡ words.now.table_id) }
    requires cells { All (λ r. r.cell ≡ words.now.table_id) readers.old.items }
    ensures ended { IfOk result (λ ended. (ended.0 ≡ publisher.value) × (ended.1.table_id ≡ words.now.table_id) × (ended.1.id ≡ 0) × (ended.1.views ≡ Gone ∷ [])) }
    ensures out { IfErr result (λ same. (same.0 ≡ publisher) × (readers.new.items ≡ readers.old.items)) }
    ensures few { IfErr result (λ same. same.1 ≡ None → vec_len readers.old ≢ publisher.readers) }
{
    if readers.len() != publisher.readers {
        return Err((publisher, None));
    }
    let Publisher {
        mut badge,
        spare,
        number,
        last,
        readers: count,
        noted,
        ready,
        names,
    } = publisher;
    take_in(words, &mut badge, spare);
    match end_readers(words, &mut badge, readers) {
        Ok(value) => Ok((value, badge)),
        Err(in_use) => {
            let spare = give_back(words, &mut badge);
            Err((
                Publisher {
                    badge,
                    spare,
                    number,
                    last,
                    readers: count,
                    noted,
                    ready,
                    names,
                },
                Some(in_use),
            ))
        }
    }
}
