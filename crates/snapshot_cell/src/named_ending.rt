//! The same as `ending`, of readers that a type names.
ghost use Rattle.std.specs.Prelude.{◌≡◌, ◌≢◌, [], ◌∷◌, vec_len, None, IfOk, IfErr};
ghost use Rattle.std.specs.Vec.{vec_capacity};
ghost use Rattle.counted_handles.specs.Calls.{Fits, IsLike, IsLastValue};
ghost use Rattle.counted_handles.specs.declared.view.Publishing.{Publishing};
ghost use Rattle.counted_handles.specs.declared.view.View.TheVariants.{Gone};
ghost use Rattle.snapshot_cell.specs.Tokens.{IsClosing};

use crate::named::{NamedReader, Naming};
use crate::tokens::{Publisher, Reader};
use atomic_table::Badge;
use counted_handles::{InUse, Names, View, Words, end, give_back, take_in};

// As of readers that no type names: the value published last, or [`InUse`] with the readers as they were.
fn end_named<T, C: Names<T>, N: Naming>(
    words: &Words<T, C>,
    badge: &mut Badge<View<T>>,
    readers: &mut Vec<NamedReader<T, N>>,
) -> Result<T, InUse>
    requires fits { Fits words.now.table_id × (badge.old.table_id ≡ words.now.table_id) × (badge.old.id ≡ 0) }
    requires named { words.now.table_id ≡ N.cell }
    requires closing { (p : Publishing T) × IsClosing p (vec_len readers.old) badge.old.views × (p.name ≡ words.now.table_id.views_name) }
    ensures badge { (badge.new.table_id ≡ badge.old.table_id) × (badge.new.id ≡ badge.old.id) }
    ensures ended { IfOk result (λ value. (p : Publishing T) → IsClosing p (vec_len readers.old) badge.old.views → IsLastValue p.published value × (badge.new.views ≡ Gone ∷ [])) }
    ensures in_use { IfErr result (λ _. (p : Publishing T) → IsClosing p (vec_len readers.old) badge.old.views → IsLike p badge.new.views × (readers.new.items ≡ readers.old.items)) }
    ensures room { vec_capacity readers.new ≡ vec_capacity readers.old }
{
    let Some(named) = readers.pop() else {
        return end(words, badge);
    };
    let NamedReader { reader, names } = named;
    let Reader { badge: guest, left } = reader;
    take_in(words, badge, guest);
    match end_named(words, badge, readers) {
        Ok(value) => Ok(value),
        Err(in_use) => {
            let badge = give_back(words, badge);
            let reader = Reader { badge, left };
            readers.push_reserved(NamedReader { reader, names });
            Err(in_use)
        }
    }
}

// The same for the publisher's token: the value, with what is left of the token.
pub(crate) fn end_all_named<T, C: Names<T>, N: Naming>(
    words: &Words<T, C>,
    publisher: Publisher<T, C>,
    readers: &mut Vec<NamedReader<T, N>>,
) -> Result<(T, Badge<View<T>>), (Publisher<T, C>, Option<InUse>)>
    requires fits { Fits words.now.table_id × (publisher.cell ≡ words.now.table_id) }
    requires named { words.now.table_id ≡ N.cell }
    ensures ended { IfOk result (λ ended. (ended.0 ≡ publisher.value) × (ended.1.table_id ≡ words.now.table_id) × (ended.1.id ≡ 0) × (ended.1.views ≡ Gone ∷ [])) }
    ensures out { IfErr result (λ same. (same.0 ≡ publisher) × (readers.new.items ≡ readers.old.items)) }
    ensures few { IfErr result (λ same. same.1 ≡ None → vec_len readers.old ≢ publisher.readers) }
{
    if readers.len() != publisher.readers {
        return Err((publisher, None));
    }
    let Publisher {
        mut badge,
        spare,
        number,
        last,
        readers: count,
        noted,
        ready,
        names,
    } = publisher;
    take_in(words, &mut badge, spare);
    match end_named(words, &mut badge, readers) {
        Ok(value) => Ok((value, badge)),
        Err(in_use) => {
            let spare = give_back(words, &mut badge);
            Err((
                Publisher {
                    badge,
                    spare,
                    number,
                    last,
                    readers: count,
                    noted,
                    ready,
                    names,
                },
                Some(in_use),
            ))
        }
    }
}
