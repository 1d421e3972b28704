//! The host's primaries of streams 3, 14 and 16.

use crate::material::{CarrierSlots, RecipePart};
use crate::named_value::NamedValue;
use gem_ids::{Listed, Text80};
use item_model::Item;

/// A primary of the host, with the parts of its body in the printed order (after SEMI E87, E40 and E94; this tool's
/// profile, messages). Words of actions and commands, names of objects, attributes, carriers, jobs and recipes are any
/// texts, and numbers of ports, slots and commands any up to 255. A part with a fixed value is no field.
pub enum ShopMsg {
    /// Carrier action request: DATAID, CARRIERACTION, CARRIERID, PTN, and the attributes, each its name and its value.
    S3F17(u32, Text80, Text80, u8, Listed<NamedValue>),
    /// Port action request: PORTACTION, PTN, and an item that may be of any kind.
    S3F25(Text80, u8, Item),
    /// Change access: ACCESSMODE, and PTNs. None stands for all ports.
    S3F27(u8, Listed<u8>),
    /// Create object request: OBJSPEC, OBJTYPE, and the attributes, each its name and its value.
    S14F9(Text80, Text80, Listed<NamedValue>),
    /// Process job command request: DATAID, PRJOBID, PRCMDNAME, and an item that may be of any kind.
    S16F5(u32, Text80, Text80, Item),
    /// Process job creation: DATAID, PRJOBID, the carriers, the recipe, PRPROCESSSTART, which is true where the job starts
    /// by itself, and a list of pause events, which may hold items of any kind.
    S16F11(u32, Text80, Listed<CarrierSlots>, RecipePart, bool, Item),
    /// Process job dequeue: PRJOBIDs. None stands for all that are queued.
    S16F17(Listed<Text80>),
    /// Process job list request. Its text is ignored.
    S16F19,
    /// Process job space request. Its text is ignored.
    S16F21,
    /// Control job command request: CTLJOBID, CTLJOBCMD, and an item that may be of any kind.
    S16F27(Text80, u8, Item),
}

// Written out, so that it is one call wherever such a message is dropped.
impl Drop for ShopMsg {
    fn drop(self) {
        match self {
            ShopMsg::S3F17(_a, _b, _c, _d, _e) => {}
            ShopMsg::S3F25(_a, _b, _c) => {}
            ShopMsg::S3F27(_a, _b) => {}
            ShopMsg::S14F9(_a, _b, _c) => {}
            ShopMsg::S16F5(_a, _b, _c, _d) => {}
            ShopMsg::S16F11(_a, _b, _c, _d, _e, _f) => {}
            ShopMsg::S16F17(_a) => {}
            ShopMsg::S16F27(_a, _b, _c) => {}
            ShopMsg::S16F19 | ShopMsg::S16F21 => {}
        }
    }
}
