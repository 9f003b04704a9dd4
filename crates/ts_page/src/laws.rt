// What holds of the bytes of every page.
ghost use Rattle.std.specs.Prelude.{◌≡◌, ◌<◌, ℕ, List, length, slice_index, Some};
ghost use Rattle.ts_page.specs.Pages.{page_size, head_of, FitsHead, HasHead};
ghost use Rattle.ts_page.specs.declared.page.Head.{Head as TheHead};

/// What a page's head is read as is one that is written so, and one that is written so is read as it.
pub fn a_head_is_read_as_it_is_written()
    ensures read { (page : List ℕ) (head : TheHead) → length page ≡ page_size → ((i : ℕ) → slice_index page i < 256) →
        head_of page ≡ Some head → HasHead page head }
    ensures written { (page : List ℕ) (head : TheHead) → FitsHead head → HasHead page head → head_of page ≡ Some head }
{}
