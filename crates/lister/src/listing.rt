// The lister's text: the lines of the plane that a saved layout loads as, or the line of a refused load.
ghost use Rattle.std.specs.Prelude.{◌≡◌, ◌+◌, ◌*◌, ◌≤◌, length};
ghost use Rattle.table.specs.Words.{records_of};
ghost use Rattle.ushanderi.specs.Promises.{Fit};
ghost use Rattle.lister.specs.TextLaws.{Adds};
ghost use Rattle.lister.specs.Sizes.{LINE, Sized};
ghost use Rattle.lister.specs.Listing.{Records, lines_at, ListsPlane, AddsPlane, Lists};

use crate::text::Text;
use ushanderi::answer::DONE;

// The plane's ends.
const LEAST: i32 = -16777216;

const MOST: i32 = 16777216;

// The lines of the tiles that a list names.
fn put_lines(t: &[i32], list: &[i32], text: &mut Text<'_>)
    requires records { Records t.now list.now }
    requires room { text.old.at + LINE * length list.now ≤ length text.old.out.now }
    ensures { Adds text.old (lines_at t.now list.now) text.new }
{
    for entry in list {
        let i = ruler::length(*entry) as usize;
        text.put_line(table::read(t, i));
    }
}

// All tiles of a sound table, in directed order: how many there are. The list has room for every record.
fn list_plane(t: &[i32], list: &mut [i32]) -> usize
    requires fit { Fit t.now }
    requires t_in_bounds { records_of t.now ≤ length list.old }
    ensures { ListsPlane t.now list.old list.new result }
{
    let a = ushanderi::reading::enumerate(t, LEAST, LEAST, MOST, MOST, list);
    ruler::length(a.value) as usize
}

// The lines of all tiles of a sound table, in directed order.
fn put_plane(t: &[i32], list: &mut [i32], text: &mut Text<'_>)
    requires fit { Fit t.now }
    requires t_in_bounds { records_of t.now ≤ length list.old }
    requires room { text.old.at + LINE * records_of t.now ≤ length text.old.out.now }
    ensures { AddsPlane t.now text.old text.new }
{
    let n = list_plane(t, list);
    put_lines(t, &list[..n], text);
}

// A saved layout loaded into a table, and its text at the start of the lent bytes: how many bytes that is.
pub(crate) fn list(t: &mut [i32], bytes: &[u8], list: &mut [i32], out: &mut [u8]) -> usize
    requires { Sized t.old bytes.now list.old out.old }
    ensures { Lists t.old bytes.now out.new result }
{
    let a = ushanderi::layouts::load(t, bytes);
    let mut text = Text::new(out);
    if a.number == DONE {
        put_plane(t, list, &mut text);
    } else {
        text.put_refused(ruler::at(a.number), ruler::at(a.value));
    }
    text.len()
}
