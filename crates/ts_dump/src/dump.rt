// The dump of a volume.
ghost use Rattle.std.specs.Prelude.{◌≡◌, IsTrue};
ghost use Rattle.ts_model.specs.Definitions.{IsDefinitions};
ghost use Rattle.ts_layout.specs.Meaning.{AreThere, Layout};
ghost use Rattle.ts_dump_texts.specs.Script.{script_of};
ghost use Rattle.ts_dump.specs.Chosen.{IsWithin, chosen_texts, texts_defined};
ghost use Rattle.ts_dump.specs.Dumped.{DumpRan, grouped};
ghost use Rattle.ts_dump.specs.Grouping.{ending};
ghost use Rattle.ts_dump.specs.Held.{IsLayoutOf, IsOpen};
ghost use Rattle.ts_dump.specs.Placed.{SaysTexts};
ghost use Rattle.ts_dump.specs.Saying.{Caused, SaysText};

use crate::choice::{Choice, choose};
use crate::definitions::print_chosen;
use crate::ended::{Fault, ended_of, unread};
use crate::grouping::Grouping;
use crate::opened::{Opened, open};
use crate::series::say_elements;
use crate::{Ended, Wish};
use std::alloc::Global;
use ts_base::Bytes;
use ts_disk::Site;
use ts_dump_laws::{scripts_make_series_of_volumes, scripts_make_what_a_volume_means};
use ts_model::Defs;

/// Reads a volume, with what its journal puts over the pages, and says the script that makes what is wished of what it
/// means: all of it, the same without elements, or the series of a key with what it stands on. The script is the texts
/// of the statements of its row types, patterns, calendars, containers and series, each in the order of the names, then
/// those of the elements of each series, in rising stamps; one statement a line, each by itself or in transactions of
/// 32. Carried out on an empty volume with as many element pages, each is answered by `ok`, and they make the same
/// again, in the newest format. Where no series has the key, nothing is said. Nothing is written or synced, and what is
/// pending stays so. The definitions are said in one piece, the elements of each page in one.
pub fn dump_volume<S: Site>(alloc: Global, wish: Wish<'_>, site: &mut S) -> Ended
    ensures ran { DumpRan S.tells wish.entry result (S.device site.old) (S.device site.new) }
{
    scripts_make_what_a_volume_means();
    scripts_make_series_of_volumes();
    match open(alloc, site) {
        Ok(opened) => match choose(&opened.found.defs, wish.part) {
            Some(choice) => {
                ended_of(say_script(alloc, choice, wish.in_transactions, &opened, site))
            }
            None => Ended::NoSeries,
        },
        Err(fault) => unread(fault),
    }
}

// Says the script.
fn say_script<S: Site>(
    alloc: Global,
    choice: Choice,
    in_transactions: bool,
    opened: &Opened,
    site: &mut S,
) -> Result<(), Fault>
    requires within { IsWithin choice }
    requires open { IsOpen S.tells opened.now (S.device site.old) }
    ensures caused { Caused result (S.device site.old) (S.device site.new) }
    ensures said { IsTrue S.tells → (l : Layout)
        → IsLayoutOf opened.now.found.defs.definitions opened.now.found.space (S.device site.old).held l
        → SaysText (script_of (grouped in_transactions (chosen_texts l choice))) result (S.device site.old)
        (S.device site.new) }
{
    let mut grouping = Grouping::first(in_transactions);
    say_texts(alloc, choice, opened, &mut grouping, site)?;
    say_ending(grouping, site)
}

// Says the statements of the definitions and of the elements.
fn say_texts<S: Site>(
    alloc: Global,
    choice: Choice,
    opened: &Opened,
    grouping: &mut Grouping,
    site: &mut S,
) -> Result<(), Fault>
    requires within { IsWithin choice }
    requires open { IsOpen S.tells opened.now (S.device site.old) }
    ensures caused { Caused result (S.device site.old) (S.device site.new) }
    ensures said { IsTrue S.tells → (l : Layout)
        → IsLayoutOf opened.now.found.defs.definitions opened.now.found.space (S.device site.old).held l
        → SaysTexts grouping.old (chosen_texts l choice) grouping.new result (S.device site.old) (S.device site.new) }
{
    say_definitions(alloc, choice, &opened.found.defs, grouping, site)?;
    say_elements(alloc, choice, opened, grouping, site)
}

// Says the statements of the definitions, in one piece.
fn say_definitions<S: Site>(
    alloc: Global,
    choice: Choice,
    defs: &Defs,
    grouping: &mut Grouping,
    site: &mut S,
) -> Result<(), Fault>
    requires within { IsWithin choice }
    requires there { AreThere defs.now.definitions }
    requires rules { IsDefinitions defs.now.definitions }
    ensures caused { Caused result (S.device site.old) (S.device site.new) }
    ensures said { IsTrue S.tells
        → SaysTexts grouping.old (texts_defined defs.now.definitions choice) grouping.new result (S.device site.old)
        (S.device site.new) }
{
    let mut text = Bytes::new(alloc);
    print_chosen(alloc, defs, choice, grouping, &mut text)?;
    site.say(text.as_slice())?;
    Ok(())
}

// Says the end of the last transaction, if one is open.
fn say_ending<S: Site>(grouping: Grouping, site: &mut S) -> Result<(), Fault>
    ensures caused { Caused result (S.device site.old) (S.device site.new) }
    ensures said { IsTrue S.tells
        → SaysText (script_of (ending grouping)) result (S.device site.old) (S.device site.new) }
{
    match grouping {
        Grouping::Open { .. } => {
            site.say(b"Commit;\n")?;
            Ok(())
        }
        Grouping::Alone | Grouping::First => Ok(()),
    }
}
