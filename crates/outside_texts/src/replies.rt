//! Items of replies of the tool that are lent, and what is asked twice of one reply.

use anyhow::Result;
use item_model::{Bytes, Item, Items, U8s};
use msgs_gem::{GemReply, gem_item};
use std::alloc::Global;

/// What the item of an S1F2 with this model and this revision says, which two words tell, twice.
pub fn identity_words(alloc: Global, said: &str) -> Result<String> {
    let (mdln, softrev) = said.split_once(' ').unwrap_or((said, ""));
    let mdln = Bytes::from_vec(Vec::from_slice(alloc, mdln.as_bytes())?);
    let softrev = Bytes::from_vec(Vec::from_slice(alloc, softrev.as_bytes())?);
    let reply = GemReply::S1F2(mdln, softrev);
    let once = texts_of_item(alloc, &gem_item(alloc, &reply)?)?;
    let again = texts_of_item(alloc, &gem_item(alloc, &reply)?)?;
    Ok(format!(in alloc; "{once} {again}")?)
}

/// How many U1 of the element 7 the item of an S1F4 has that is made of so many, twice.
pub fn values_words(alloc: Global, said: &str) -> Result<String> {
    let mut values = Items::new(alloc);
    for _ in 0..said.parse::<u64>().unwrap_or(0) {
        values.push(Item::U1(U8s::from_vec(vec![in alloc; 7]?)))?;
    }
    let reply = GemReply::S1F4(values);
    let once = sevens_of(&gem_item(alloc, &reply)?);
    let again = sevens_of(&gem_item(alloc, &reply)?);
    Ok(format!(in alloc; "{once} {again}")?)
}

// The two texts of a list of two, and `none` where it is no such item.
fn texts_of_item(alloc: Global, item: &Item) -> Result<String> {
    if let Item::List(parts) = item {
        if let [Item::Ascii(one), Item::Ascii(other)] = parts.as_slice() {
            let one = String::from_utf8_lossy(alloc, one.as_slice())?;
            let other = String::from_utf8_lossy(alloc, other.as_slice())?;
            return Ok(format!(in alloc; "{} {}", one.as_str(), other.as_str())?);
        }
    }
    Ok(String::from_str(alloc, "none")?)
}

// How many items of a list are a U1 of the element 7.
fn sevens_of(item: &Item) -> usize {
    match item {
        Item::List(parts) => parts
            .as_slice()
            .iter()
            .filter(|part| is_seven(part))
            .count(),
        _ => 0,
    }
}

// Whether an item is a U1 of the element 7.
fn is_seven(item: &Item) -> bool {
    match item {
        Item::U1(numbers) => numbers.as_slice() == [7].as_slice(),
        _ => false,
    }
}
