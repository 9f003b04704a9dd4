// What holds of layouts and of their catalogues.
ghost use Rattle.ts_layout.specs.Laws.{PagesMeanOneCatalogue, OtherBytesMeanNothing, WrittenSlotsChangeDefinitions};
ghost use Rattle.ts_layout.specs.Laws.{DefinitionsAreMade, DefinitionsAreDropped};
ghost use Rattle.ts_layout.specs.Laws.{NamesStandInSlots, ReferencesAreNames, SlotsAreCounted};
ghost use Rattle.ts_layout.specs.Laws.{DefinitionsAreUsedBySlots};

/// Pages are laid out in one way at most, and so mean one catalogue at most.
pub fn pages_mean_one_catalogue()
    ensures { PagesMeanOneCatalogue }
{}

/// What stands in the journal, and behind the heads of free pages, means nothing.
pub fn a_journal_and_freed_bytes_mean_nothing()
    ensures { OtherBytesMeanNothing }
{}

/// A slot that is written changes the definitions, and neither the header nor the element pages.
pub fn a_written_slot_changes_definitions_alone()
    ensures { WrittenSlotsChangeDefinitions }
{}

/// A definition that is made adds its name, and elements keep their columns. What it is in the catalogue has names in
/// place of slots.
pub fn a_definition_is_made()
    ensures { DefinitionsAreMade }
{}

/// A definition that has no pages and to which nothing refers is dropped: its name goes, and elements keep their
/// columns.
pub fn a_definition_is_dropped()
    ensures { DefinitionsAreDropped }
{}

/// Each definition's name has its slot, and stands in the catalogue for what is there; no other does.
pub fn names_stand_in_slots()
    ensures { NamesStandInSlots }
{}

/// What a calendar, a container or a series refers to stands in the catalogue under the name that it gives; and the
/// calendar that a text there stands for is the one in the slot.
pub fn references_are_names()
    ensures { ReferencesAreNames }
{}

/// The catalogue is full exactly where no slot is empty; the quotas of slots are those of the catalogue.
pub fn slots_are_counted()
    ensures { SlotsAreCounted }
{}

/// Something in the catalogue refers to a name exactly where a filled slot refers to that name's slot.
pub fn a_definition_is_used_by_its_slot()
    ensures { DefinitionsAreUsedBySlots }
{}
