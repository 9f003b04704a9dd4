// What commands leave of series that have no hidden element.
ghost use Rattle.ts_hidden.specs.Hidden.{OnlyHideElemHides};

/// No command but HideElem hides an element, and this one only of the series that it names: a series that has no hidden
/// element before a command has none behind it.
pub fn only_hide_elem_hides()
    ensures { OnlyHideElemHides }
{}
