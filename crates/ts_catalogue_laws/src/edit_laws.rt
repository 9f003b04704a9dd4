// What edits put and mark, and where, in the words of one who asks for them.
ghost use Rattle.ts_catalogue_laws.specs.EditLaws.{RowsArePut, ElementsAreMarked};

use ts_answer_laws::what_is_not_written_stays;

/// What InsElem, UpdElem, PutElemNoDups and PutElem put is the visible row of their literals: at the stamp that theirs
/// addresses, where nothing stands or where something does; and PutElem in an irregular series at its own stamp, or
/// behind the last element of its second where that is taken. All else stays.
pub fn a_row_is_put_in_its_place()
    ensures { RowsArePut }
{
    what_is_not_written_stays();
}

/// HideElem and RevealElem mark the element that their stamp addresses, and leave its values and all else.
pub fn an_addressed_element_is_marked()
    ensures { ElementsAreMarked }
{
    what_is_not_written_stays();
}
