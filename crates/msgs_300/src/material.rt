//! The parts of a process job's creation: its recipe, and what is fixed of its material.

ghost use Rattle.item_model.specs.View.{view};
ghost use Rattle.message_model.specs.Bodies.{byte as byte_form, fixed, small_id as small_id_form};
ghost use Rattle.body_parts.specs.Given.{Gives};
ghost use Rattle.message_model.specs.ShopParts.{any_list as any_list_form, recipe_part as recipe_part_form};
ghost use Rattle.message_model.specs.ShopPrimaries.{recipe_said};

use body_parts::reading::{byte, copied, parts, small_id, text};
use item_model::Item;
use message_model::{BodyFault, RecipePart};

// The recipe of a creation: a list of the recipe method, the recipe, and a list of variables.
pub(crate) fn recipe_part(item: &Item) -> Result<RecipePart, BodyFault>
    ensures { Gives recipe_said result (recipe_part_form (view item.now)) }
{
    let [method, recipe, variables] = parts::<3>(item)?;
    recipe_method(method)?;
    Ok(RecipePart {
        recipe: text(recipe)?,
        variables: any_list(variables)?,
    })
}

// A copy of a list of any items.
pub(crate) fn any_list(item: &Item) -> Result<Item, BodyFault>
    ensures { Gives view result (any_list_form (view item.now)) }
{
    match item {
        Item::List(_) => copied(item),
        _ => Err(BodyFault::IllegalData),
    }
}

// The recipe method, which is 1.
fn recipe_method(item: &Item) -> Result<u8, BodyFault>
    ensures { Gives (λ n. n) result (fixed 1 small_id_form (view item.now)) }
{
    let method = small_id(item)?;
    if method == 1 {
        Ok(method)
    } else {
        Err(BodyFault::IllegalData)
    }
}

// The format of a job's material, which is that of carriers: the byte 13.
pub(crate) fn material_format(item: &Item) -> Result<u8, BodyFault>
    ensures { Gives (λ n. n) result (fixed 13 byte_form (view item.now)) }
{
    let format = byte(item)?;
    if format == 13 {
        Ok(format)
    } else {
        Err(BodyFault::IllegalData)
    }
}
