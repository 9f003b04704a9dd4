// The views of the sessions.
ghost use Rattle.std.specs.Prelude.{◌≡◌, ◌<◌, None, Some, false, length, replicate, slice_set, IfOk, OnOk, OnErr};
ghost use Rattle.std.specs.List.{list_any};
ghost use Rattle.std.specs.Option.{IsSome, option_copied_mut};
ghost use Rattle.std.specs.Borrow.{sem};
ghost use Rattle.ts_views.specs.View.{view_of, lacks_image, HasImage, KeepsImage, MayKeepImage, OfEachOpen, Turns};
ghost use Rattle.ts_views.specs.View.{EachTurns};
ghost use Rattle.ts_views.specs.Lends.{lends_view};
ghost use Rattle.ts_views.specs.Pages.{keep_image};

use crate::View;
use std::alloc::{AllocError, Global};
use std::marker::Model;
use ts_journal::{Batch, Change};
use ts_page::Page;

/// For each session its view, where that is open.
#[derive(Drop)]
pub struct Views {
    views: Vec<Option<View>>,
}

impl Model for Views {
    ghost use Rattle.std.specs.Prelude.{List, Option};
    ghost use Rattle.ts_views.specs.declared.view.View.{View};

    ghost Value = { List (Option View) };

    ghost view = { λ v. v.views.items };
}

impl Views {
    /// So many closed views.
    pub fn new(alloc: Global, count: usize) -> Result<Views, AllocError>
        ensures { IfOk result (λ views. views ≡ replicate count None) }
    {
        let mut views = Vec::with_capacity(alloc, count)?;
        for _ in 0..count {
            views.push(None)?;
        }
        Ok(Views { views })
    }

    /// Opens the closed view of a session.
    pub fn open(&mut self, who: usize, view: View)
        requires within { who < length self.old }
        requires closed { view_of who self.old ≡ None }
        ensures { self.new ≡ slice_set self.old who (Some view) }
    {
        self.views[who] = Some(view);
    }

    /// The view of a session, or nothing where it is closed.
    pub fn view(&mut self, who: usize) -> Option<&mut View>
        requires { who < length self.old }
        ensures* writes_back { sem 𝓛 (lends_view self.entry who result) }
        ensures value { option_copied_mut result ≡ view_of who self.old }
    {
        let place = &mut self.views[who];
        place.as_mut()
    }

    /// Closes the open view of a session.
    pub fn close(&mut self, who: usize)
        requires within { who < length self.old }
        requires open { IsSome (view_of who self.old) }
        ensures { self.new ≡ slice_set self.old who None }
    {
        self.views[who] = None;
    }

    /// Whether some open view has no old image of this number. Where none lacks it, `keep` changes nothing.
    pub fn lacks(&self, no: u32) -> bool
        ensures value { result ≡ list_any (lacks_image no) self.now }
        ensures has { result ≡ false → OfEachOpen (HasImage no) self.now }
    {
        any_lacks(&self.views, no)
    }

    /// Keeps a page in every open view that has no old image of that number; after an error it may stand in some of
    /// them.
    pub fn keep(&mut self, no: u32, page: &Page) -> Result<(), AllocError>
        ensures ok { OnOk result (EachTurns (KeepsImage no page.now) self.old self.new) }
        ensures err { OnErr result (EachTurns (MayKeepImage no page.now) self.old self.new) }
    {
        for who in 0..self.views.len() {
            keep_in(&mut self.views[who], no, page)?;
        }
        Ok(())
    }
}

// Whether one of them is open and has no old image of this number.
fn any_lacks(places: &[Option<View>], no: u32) -> bool
    ensures { result ≡ list_any (lacks_image no) places.now }
{
    places.iter().any(|place| lacks_image(place, no))
}

fn lacks_image(place: &Option<View>, no: u32) -> bool
    ensures { result ≡ lacks_image no place.now }
{
    match place {
        Some(view) => view.old.find(no).is_none(),
        None => false,
    }
}

// Keeps a page in one of them.
fn keep_in(place: &mut Option<View>, no: u32, page: &Page) -> Result<(), AllocError>
    ensures ok { OnOk result (Turns (KeepsImage no page.now) place.old place.new) }
    ensures err { OnErr result (Turns (MayKeepImage no page.now) place.old place.new) }
{
    match place {
        Some(view) => keep_image(&mut view.old, no, page),
        None => Ok(()),
    }
}

// Keeps a page among old images, where they have none of that number.
fn keep_image(old: &mut Batch, no: u32, page: &Page) -> Result<(), AllocError>
    ensures ok { OnOk result (old.new.entries ≡ keep_image no page.now old.old.entries) }
    ensures err { OnErr result (old.new.entries ≡ old.old.entries) }
{
    if old.find(no).is_some() {
        return Ok(());
    }
    old.set(no, Change::Image(*page))
}
