//! Laws, each as the contract of a function that does nothing.

ghost use Rattle.std.specs.Prelude.{◌≡◌, ◌<◌, ◌^◌, ℕ, List, [], Ok, Some};
ghost use Rattle.path_name.specs.Paths.{IsPath, path_of, followed, path_text};
ghost use Rattle.path_name.specs.FolderRefs.{folder_of};
ghost use Rattle.path_name.specs.declared.folder_ref.FolderRef.{FolderRef};
ghost use Rattle.path_name.specs.Decimals.{number_in, decimal_text};

use crate::Path;

/// What a `Path` holds are segments.
pub fn path_is_segments(path: &Path)
    ensures { IsPath path.now }
{
    let _text = path.text();
}

/// The text of a path is read as that path.
pub fn path_texts_are_read()
    ensures { (path : List (List ℕ)) → IsPath path → path_of (path_text path) ≡ Ok path }
{}

/// What a text names, or leads to from a path, is a path. From the root it leads to the path that it names.
pub fn texts_lead_to_paths()
    ensures path { (text : List ℕ) (path : List (List ℕ)) → path_of text ≡ Ok path → IsPath path }
    ensures folder { (text : List ℕ) (folder : FolderRef) → folder_of text ≡ Ok folder → IsPath folder.path }
    ensures followed { (start path : List (List ℕ)) (text : List ℕ) →
        followed start text ≡ Ok path → IsPath start → IsPath path }
    ensures from_root { (text : List ℕ) → followed [] text ≡ path_of text }
{}

/// The decimal text of a number below 2^64 is read as that number.
pub fn decimal_texts_are_read()
    ensures { (n : ℕ) → n < 2 ^ 64 → number_in (decimal_text n) ≡ Some n }
{}
