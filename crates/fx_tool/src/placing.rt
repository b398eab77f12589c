//! Placing of files.
ghost use Rattle.std.specs.Prelude.{map};
ghost use Rattle.fx_words.specs.Command.{texts};
ghost use Rattle.fx_tool.specs.Placing.{placings, PlacesAll};

use fx_io::{IoFault, Shelf};

/// Places a file of each name with its content, one after another.
///
/// # Errors
///
/// `Failed` just where the shelf's count of failed placings rose; then the file that was to be placed may hold
/// anything, and no later one is placed.
pub fn place_all<S: Shelf>(
    shelf: &mut S,
    names: &[String],
    contents: &[&[u8]],
) -> Result<(), IoFault>
    ensures { PlacesAll (placings (texts names.now) (map (λ c. c.now) contents.now)) (S.seen shelf.old)
        (S.seen shelf.new) result }
{
    match names {
        [] => Ok(()),
        [name, names @ ..] => match contents {
            [] => Ok(()),
            [content, contents @ ..] => {
                shelf.place(name.as_str(), content)?;
                place_all(shelf, names, contents)
            }
        },
    }
}
