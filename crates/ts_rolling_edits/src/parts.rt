// The edits of which those of rolling sets are made, each on copies of what is in memory and on pages.
ghost use Rattle.std.specs.Prelude.{◌≡◌, ◌≤◌, ◌<◌, [], Ok, Err, EachIndex, slice_index, length, OnOk, true};
ghost use Rattle.ts_container.specs.KeptCharges.{AreCharges};
ghost use Rattle.ts_answer.specs.Answer.{put_no_dups};
ghost use Rattle.ts_answer.specs.Elements.{with_window, without_windows};
ghost use Rattle.ts_answer.specs.View.{IsSeen};
ghost use Rattle.ts_answer.specs.CarriedOut.{Grows};
ghost use Rattle.ts_rolling_edits.specs.Parts.{seen_on, IsPart, Never, IsWithout, GrowsByPages};

use crate::copies::Copies;
use std::alloc::Global;
use ts_answer::Stop;
use ts_base::{Key, Name, Reply, Stamp};
use ts_command::Literals;
use ts_define::{new_irregular, redefine};
use ts_elements::{drop_series, edit_element};
use ts_model::Kind;
use ts_page::{Page, Pages};
use ts_rolling::window_key;
use ts_series::EditKind;

/// Drops a series, if it is there. `page` is room to read one, here and below.
pub(crate) fn drop_if_there<P: Pages>(
    alloc: Global,
    pages: &mut P,
    page: &mut Page,
    copies: &mut Copies,
    key: &Key,
) -> Result<(), Stop>
    requires seen { IsSeen P.tells (seen_on copies.old (P.contents pages.old)) }
    requires charged { AreCharges copies.old.charges copies.old.defs.definitions copies.old.space }
    ensures part { IsPart P.tells (IsWithout key.now)
        Never result copies.new.charges
        (seen_on copies.old (P.contents pages.old)) (seen_on copies.new (P.contents pages.new)) }
    ensures grows { OnOk result (GrowsByPages (P.contents pages.old) (P.contents pages.new)) }
    ensures undisturbed { P.undisturbed pages.old pages.new }
{
    let mut said = Reply::new(alloc);
    match drop_series(
        alloc,
        pages,
        page,
        &copies.defs,
        &copies.space,
        key,
        &mut said,
    ) {
        Ok(effect) => {
            copies.take(alloc, effect)?;
            Ok(())
        }
        Err(Stop::Refused(_)) => Ok(()),
        Err(Stop::Failed) => Err(Stop::Failed),
        Err(Stop::Memory(error)) => Err(Stop::Memory(error)),
    }
}

/// Drops windows of a set.
pub(crate) fn drop_windows<P: Pages>(
    alloc: Global,
    pages: &mut P,
    page: &mut Page,
    copies: &mut Copies,
    set: &Key,
    windows: &[u64],
) -> Result<(), Stop>
    requires short { length set.now ≤ 40 }
    requires few { EachIndex windows.now (λ k. slice_index windows.now k < 1_000_000_000_000) }
    requires seen { IsSeen P.tells (seen_on copies.old (P.contents pages.old)) }
    requires charged { AreCharges copies.old.charges copies.old.defs.definitions copies.old.space }
    ensures part { IsPart P.tells (λ cat after. after ≡ without_windows set.now windows.now cat)
        Never result copies.new.charges
        (seen_on copies.old (P.contents pages.old)) (seen_on copies.new (P.contents pages.new)) }
    ensures grows { OnOk result (GrowsByPages (P.contents pages.old) (P.contents pages.new)) }
    ensures undisturbed { P.undisturbed pages.old pages.new }
{
    for window in windows {
        let key = window_key(alloc, set, *window)?;
        drop_if_there(alloc, pages, page, copies, &key)?;
    }
    Ok(())
}

/// Makes a window, if it is to be made: an irregular series of a container.
pub(crate) fn open_window<P: Pages>(
    alloc: Global,
    pages: &mut P,
    page: &mut Page,
    copies: &mut Copies,
    attach: bool,
    key: &Key,
    container: &Name,
) -> Result<(), Stop>
    requires seen { IsSeen P.tells (seen_on copies.old (P.contents pages.old)) }
    requires charged { AreCharges copies.old.charges copies.old.defs.definitions copies.old.space }
    ensures part { IsPart P.tells (λ cat after. with_window attach key.now container.now cat ≡ Ok after)
        (λ refusal cat. with_window attach key.now container.now cat ≡ Err refusal) result copies.new.charges
        (seen_on copies.old (P.contents pages.old)) (seen_on copies.new (P.contents pages.new)) }
    ensures grows { OnOk result (Grows 1 (P.contents pages.old) (P.contents pages.new)) }
    ensures undisturbed { P.undisturbed pages.old pages.new }
{
    if !attach {
        return Ok(());
    }
    make_window(alloc, pages, page, copies, key, container)
}

// Makes it.
fn make_window<P: Pages>(
    alloc: Global,
    pages: &mut P,
    page: &mut Page,
    copies: &mut Copies,
    key: &Key,
    container: &Name,
) -> Result<(), Stop>
    requires seen { IsSeen P.tells (seen_on copies.old (P.contents pages.old)) }
    requires charged { AreCharges copies.old.charges copies.old.defs.definitions copies.old.space }
    ensures part { IsPart P.tells (λ cat after. with_window true key.now container.now cat ≡ Ok after)
        (λ refusal cat. with_window true key.now container.now cat ≡ Err refusal) result copies.new.charges
        (seen_on copies.old (P.contents pages.old)) (seen_on copies.new (P.contents pages.new)) }
    ensures grows { OnOk result (Grows 1 (P.contents pages.old) (P.contents pages.new)) }
    ensures undisturbed { P.undisturbed pages.old pages.new }
{
    // A key and a name have their forms.
    let _key = key.as_slice();
    let _container = container.as_slice();
    let mut said = Reply::new(alloc);
    let decided = new_irregular(&copies.defs, key, container);
    let effect = redefine(pages, page, Kind::Series, decided, &mut said)?;
    copies.take(alloc, effect)?;
    Ok(())
}

/// Puts an element into a window, in place of one at its stamp, and says the stamp. `page` is room to read one.
pub(crate) fn put_in_window<P: Pages>(
    alloc: Global,
    pages: &mut P,
    page: &mut Page,
    copies: &mut Copies,
    key: &Key,
    stamp: Stamp,
    values: &Literals,
    out: &mut Reply,
) -> Result<(), Stop>
    requires seen { IsSeen P.tells (seen_on copies.old (P.contents pages.old)) }
    requires charged { AreCharges copies.old.charges copies.old.defs.definitions copies.old.space }
    requires empty { out.old ≡ [] }
    ensures part { IsPart P.tells (λ cat after. put_no_dups key.now stamp values.now cat ≡ Ok (out.new, after))
        (λ refusal cat. put_no_dups key.now stamp values.now cat ≡ Err refusal) result copies.new.charges
        (seen_on copies.old (P.contents pages.old)) (seen_on copies.new (P.contents pages.new)) }
    ensures grows { OnOk result (Grows 1 (P.contents pages.old) (P.contents pages.new)) }
    ensures undisturbed { P.undisturbed pages.old pages.new }
{
    let how = EditKind::PutNoDups;
    let effect = edit_element(
        pages,
        page,
        &copies.defs,
        &copies.space,
        &copies.charges,
        how,
        key,
        stamp,
        values,
        out,
    )?;
    copies.take(alloc, effect)?;
    Ok(())
}
