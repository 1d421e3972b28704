//! Readers of the parts of messages that have types of their own.

ghost use Rattle.message_model.specs.Bodies.{named_value};
ghost use Rattle.message_model.specs.GemPrimaries.{setting, spooled_stream};
ghost use Rattle.message_model.specs.ShopParts.{carrier_slots};

use crate::reading::{Part, copied, id, list_of, parts, small_id, text};
use item_model::Item;
use message_model::{BodyFault, CarrierSlots, NamedValue, Setting, SpooledStream};
use std::alloc::Global;

impl Part for NamedValue {
    ghost form = { named_value };

    fn of_item(_alloc: Global, item: &Item) -> Result<NamedValue, BodyFault> {
        let [name, value] = parts::<2>(item)?;
        Ok(NamedValue {
            name: text(name)?,
            value: copied(value)?,
        })
    }
}

impl Part for Setting {
    ghost form = { setting };

    fn of_item(_alloc: Global, item: &Item) -> Result<Setting, BodyFault> {
        let [ecid, value] = parts::<2>(item)?;
        Ok(Setting {
            id: id(ecid)?,
            value: copied(value)?,
        })
    }
}

impl Part for SpooledStream {
    ghost form = { spooled_stream };

    fn of_item(alloc: Global, item: &Item) -> Result<SpooledStream, BodyFault> {
        let [stream, functions] = parts::<2>(item)?;
        Ok(SpooledStream {
            stream: small_id(stream)?,
            functions: list_of(alloc, functions)?,
        })
    }
}

impl Part for CarrierSlots {
    ghost form = { carrier_slots };

    fn of_item(alloc: Global, item: &Item) -> Result<CarrierSlots, BodyFault> {
        let [carrier, slots] = parts::<2>(item)?;
        Ok(CarrierSlots {
            carrier: text(carrier)?,
            slots: list_of(alloc, slots)?,
        })
    }
}
