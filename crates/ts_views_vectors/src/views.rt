// The views of some sessions.
use crate::pages::{changes_of, page_of};
use std::alloc::{AllocError, Global};
use std::test::Fail;
use ts_journal::{Batch, Change};
use ts_model::Defs;
use ts_space::Space;
use ts_views::{View, Views};

// A view of an empty catalogue, with these old images.
fn view_with(alloc: Global, old: &[(u32, u8)]) -> Result<View, AllocError> {
    Ok(View {
        defs: Defs::new(alloc),
        space: Space::new(alloc)?,
        free: Vec::new(alloc),
        old: changes_of(alloc, old)?,
        own: Batch::new(alloc),
        commands: Vec::new(alloc),
    })
}

// The first byte of the old image of page 930, if the view is open and has one.
fn old_byte(view: Option<&mut View>) -> Option<u8> {
    let view = view?;
    match view.old.find(930)? {
        Change::Image(page) => Some(page.bytes[0]),
        Change::Free => Some(0),
    }
}

// What a view with these old images has of page 930 once that was kept as sevens.
fn kept(alloc: Global, old: &[(u32, u8)]) -> Result<Option<u8>, AllocError> {
    let mut views = Views::new(alloc, 1)?;
    views.open(0, view_with(alloc, old)?);
    views.keep(930, &page_of(7))?;
    Ok(old_byte(views.view(0)))
}

#[test]
fn a_page_is_kept_where_a_view_lacks_it(rt: HostRuntime) -> Result<(), Fail> {
    let alloc = rt.alloc();
    assert_eq!(rt; kept(alloc, &[])?, Some(7));
    assert_eq!(rt; kept(alloc, &[(931, 9)])?, Some(7));
    assert_eq!(rt; kept(alloc, &[(930, 5)])?, Some(5));
    Ok(())
}

#[test]
fn a_closed_view_keeps_nothing(rt: HostRuntime) -> Result<(), Fail> {
    let alloc = rt.alloc();
    let mut views = Views::new(alloc, 2)?;
    views.open(1, view_with(alloc, &[])?);
    assert!(rt; views.lacks(930));
    views.close(1);
    assert!(rt; !views.lacks(930));
    views.keep(930, &page_of(7))?;
    assert!(rt; views.view(1).is_none());
    Ok(())
}
