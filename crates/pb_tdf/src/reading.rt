//! One pass over the items of a table.
ghost use Rattle.std.specs.Prelude.{◌≡◌, ◌+◌, ◌≤◌, ℕ, IfOk, IfSome};
ghost use Rattle.pb_tdf.specs.Inside.Passing.{PassesTexts, PassesWords, PassesDescription, PassesFieldOrEnd, PassesHeaderOrStops, PassesFieldsOrStops, PassesTableOrStops};
ghost use Rattle.pb_tdf.specs.Definition.{table_bytes_max, fields_max};

use crate::TdfFault;
use crate::items::Items;
use crate::place::FieldPlace;
use crate::totals::Totals;
use pb_base::Nsec;
use std::alloc::Global;

/// What is kept of the items before the fields.
#[derive(Clone, Copy, Debug)]
pub struct Header {
    pub name_len: usize,
    pub size: u32,
    pub interval: Nsec,
}

/// What is kept of the items of a table.
#[derive(Drop)]
pub struct Parts {
    pub header: Header,
    pub places: Vec<FieldPlace>,
    pub totals: Totals,
}

/// Texts up to an empty one, which is read too.
fn pass_texts(items: &mut Items) -> Result<(), TdfFault>
    ensures { PassesTexts items.old items.new result }
{
    while !items.text()?.is_empty() {}
    Ok(())
}

/// Numbers up to a 0, which is read too.
fn pass_words(items: &mut Items) -> Result<(), TdfFault>
    ensures { PassesWords items.old items.new result }
{
    while items.word()? != 0 {}
    Ok(())
}

/// The items between a field's type and its dimension; the length of its name.
fn pass_description(items: &mut Items) -> Result<usize, TdfFault>
    ensures { PassesDescription items.old items.new result }
{
    let name = items.text()?;
    pass_texts(items)?;
    let _processing = items.text()?;
    let _units = items.text()?;
    let _description = items.text()?;
    let _begin = items.word()?;
    Ok(name.len())
}

/// The next field of a table that begins at `start`, and the sums with it; `None` at the 0 that
/// ends the fields.
fn read_field(
    items: &mut Items,
    start: usize,
    totals: Totals,
) -> Result<Option<(FieldPlace, Totals)>, TdfFault>
    requires { items.old.limit ≤ start + table_bytes_max }
    ensures passes { PassesFieldOrEnd items.old items.new start totals result }
    ensures count { IfOk result (λ found. IfSome found (λ x. x.1.fields ≡ totals.fields + 1)) }
    ensures room { IfOk result (λ found. IfSome found (λ x. x.1.fields ≤ fields_max)) }
{
    let at = items.at();
    let type_byte = items.type_byte(totals.fields)?;
    if type_byte == 0 {
        return Ok(None);
    }
    let kind = type_byte % 128;
    let name_len = pass_description(items)?;
    let (dimension, totals) = items.dimension(kind, totals)?;
    pass_words(items)?;
    let place = FieldPlace {
        at: at.saturating_sub(start) as u32,
        name_len,
        dimension,
    };
    Ok(Some((place, totals)))
}

/// The items before the fields.
fn read_header(items: &mut Items) -> Result<Header, TdfFault>
    ensures { PassesHeaderOrStops items.old items.new result }
{
    let name = items.text()?;
    let size = items.word()?;
    let _time_type = items.byte()?;
    let _into = items.time()?;
    let interval = items.interval()?;
    Ok(Header {
        name_len: name.len(),
        size,
        interval,
    })
}

/// The fields of a table that begins at `start`, and the 0 that ends them.
fn read_fields(
    alloc: Global,
    items: &mut Items,
    start: usize,
) -> Result<(Vec<FieldPlace>, Totals), TdfFault>
    requires { items.old.limit ≤ start + table_bytes_max }
    ensures { PassesFieldsOrStops items.old items.new start result }
{
    let mut places = Vec::new(alloc);
    let mut totals = Totals::none();
    while let Some((place, with)) = read_field(items, start, totals)? {
        places.push(place).map_err(|_| TdfFault::Memory)?;
        totals = with;
    }
    Ok((places, totals))
}

/// The next table. Takes memory.
pub fn read_parts(alloc: Global, items: &mut Items) -> Result<Parts, TdfFault>
    requires { items.old.limit ≤ items.old.left.at + table_bytes_max }
    ensures { PassesTableOrStops items.old items.new result }
{
    let start = items.at();
    let header = read_header(items)?;
    let (places, totals) = read_fields(alloc, items, start)?;
    Ok(Parts {
        header,
        places,
        totals,
    })
}
