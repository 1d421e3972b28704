//! The layouts, table by table: a line for each state and for each way. A way begins at the border of a box or a frame and ends at one.

use crate::layout::{Frame, Layout, Shape, Way};

// A state: its number, its name, the middle of its box, and the box's width.
macro_rules! state {
    ($state:expr, $name:expr, $at:expr, $width:expr) => {
        Shape {
            state: $state,
            name: $name,
            at: $at,
            width: $width,
        }
    };
}

// A way from states, or from none, to a state: its line, and where its label stands.
macro_rules! way {
    ($from:expr => $to:expr, $line:expr, $label:expr) => {
        Way {
            from: $from,
            to: Some($to),
            line: $line,
            label: $label,
        }
    };
}

// A way from states to where their object ends.
macro_rules! ending {
    ($from:expr, $line:expr, $label:expr) => {
        Way {
            from: $from,
            to: None,
            line: $line,
            label: $label,
        }
    };
}

/// Table 1.
pub(crate) const COMMUNICATION: Layout = Layout {
    title: "Table 1: communication with the host",
    size: (760, 260),
    shapes: &[
        state!(0, "DISABLED", (100, 80), 130),
        state!(1, "WAIT DELAY", (380, 80), 140),
        state!(2, "WAIT CRA", (640, 80), 120),
        state!(3, "COMMUNICATING", (380, 220), 170),
    ],
    ways: &[
        way!(&[0] => 1, &[(165, 68), (310, 68)], (237, 68)),
        way!(&[1] => 0, &[(310, 92), (165, 92)], (237, 92)),
        way!(&[2] => 0, &[(640, 58), (640, 24), (100, 24), (100, 58)], (370, 24)),
        way!(&[3] => 0, &[(295, 220), (100, 220), (100, 102)], (197, 220)),
        way!(&[1] => 2, &[(450, 68), (580, 68)], (515, 68)),
        way!(&[2] => 1, &[(580, 92), (450, 92)], (515, 92)),
        way!(&[2] => 3, &[(640, 102), (640, 220), (465, 220)], (552, 220)),
        way!(&[1] => 3, &[(360, 102), (360, 198)], (360, 150)),
        way!(&[3] => 1, &[(400, 198), (400, 102)], (400, 150)),
    ],
    frames: &[],
};

/// Table 2.
pub(crate) const CONTROL: Layout = Layout {
    title: "Table 2: control",
    size: (760, 400),
    shapes: &[
        state!(1, "EQUIPMENT OFF-LINE", (150, 80), 200),
        state!(2, "ATTEMPT ON-LINE", (440, 80), 176),
        state!(3, "HOST OFF-LINE", (470, 360), 160),
        state!(4, "ON-LINE LOCAL", (320, 220), 160),
        state!(5, "ON-LINE REMOTE", (620, 220), 170),
    ],
    ways: &[
        way!(&[1] => 2, &[(250, 68), (352, 68)], (301, 68)),
        way!(&[2] => 1, &[(352, 92), (250, 92)], (301, 92)),
        way!(&[2] => 4, &[(410, 102), (410, 150), (340, 150), (340, 198)], (340, 172)),
        way!(&[2] => 5, &[(480, 102), (480, 150), (620, 150), (620, 198)], (550, 150)),
        way!(&[4] => 5, &[(400, 208), (535, 208)], (467, 208)),
        way!(&[5] => 4, &[(535, 232), (400, 232)], (467, 232)),
        way!(&[4] => 3, &[(290, 242), (290, 350), (390, 350)], (290, 300)),
        way!(&[3] => 4, &[(430, 338), (430, 290), (360, 290), (360, 242)], (360, 268)),
        way!(&[3] => 5, &[(510, 338), (510, 290), (590, 290), (590, 242)], (590, 268)),
        way!(&[5] => 3, &[(660, 242), (660, 350), (550, 350)], (660, 300)),
        way!(&[4] => 1, &[(240, 220), (150, 220), (150, 102)], (150, 160)),
        way!(&[3] => 1, &[(390, 370), (90, 370), (90, 102)], (90, 240)),
        way!(&[5] => 1, &[(705, 220), (736, 220), (736, 24), (150, 24), (150, 58)], (736, 120)),
    ],
    frames: &[],
};

/// Table 4.
pub(crate) const TRANSFER: Layout = Layout {
    title: "Table 4: transfer at a load port",
    size: (760, 200),
    shapes: &[
        state!(0, "OUT OF SERVICE", (110, 50), 166),
        state!(1, "TRANSFER BLOCKED", (650, 50), 180),
        state!(2, "READY TO LOAD", (370, 50), 160),
        state!(3, "READY TO UNLOAD", (650, 160), 176),
    ],
    ways: &[
        way!(&[0] => 2, &[(193, 38), (290, 38)], (241, 38)),
        way!(&[2] => 0, &[(290, 62), (193, 62)], (241, 62)),
        way!(&[2] => 1, &[(450, 50), (560, 50)], (505, 50)),
        way!(&[1] => 3, &[(650, 72), (650, 138)], (650, 105)),
        way!(&[3] => 2, &[(562, 160), (370, 160), (370, 72)], (466, 160)),
    ],
    frames: &[],
};

/// Table 5.
pub(crate) const ACCESS: Layout = Layout {
    title: "Table 5: access mode of a load port",
    size: (460, 90),
    shapes: &[
        state!(0, "MANUAL", (80, 46), 110),
        state!(1, "AUTO", (360, 46), 110),
    ],
    ways: &[
        way!(&[0] => 1, &[(135, 34), (305, 34)], (220, 34)),
        way!(&[1] => 0, &[(305, 58), (135, 58)], (220, 58)),
    ],
    frames: &[],
};

/// Table 6.
pub(crate) const RESERVATION: Layout = Layout {
    title: "Table 6: reservation of a load port",
    size: (460, 90),
    shapes: &[
        state!(0, "NOT RESERVED", (96, 46), 150),
        state!(1, "RESERVED", (380, 46), 120),
    ],
    ways: &[
        way!(&[0] => 1, &[(171, 34), (320, 34)], (245, 34)),
        way!(&[1] => 0, &[(320, 58), (171, 58)], (245, 58)),
    ],
    frames: &[],
};

/// Table 7.
pub(crate) const ASSOCIATION: Layout = Layout {
    title: "Table 7: association of a load port",
    size: (580, 90),
    shapes: &[
        state!(0, "NOT ASSOCIATED", (106, 46), 170),
        state!(1, "ASSOCIATED", (420, 46), 140),
    ],
    ways: &[
        way!(&[0] => 1, &[(191, 34), (350, 34)], (270, 34)),
        way!(&[1] => 0, &[(350, 58), (191, 58)], (270, 58)),
        way!(&[1] => 1, &[(490, 30), (538, 30), (538, 62), (490, 62)], (538, 46)),
    ],
    frames: &[],
};

/// Table 8.
pub(crate) const CARRIER_ID: Layout = Layout {
    title: "Table 8: id of a carrier",
    size: (760, 200),
    shapes: &[
        state!(0, "ID NOT READ", (190, 50), 140),
        state!(1, "WAITING FOR HOST", (510, 50), 180),
        state!(2, "ID VERIFIED", (190, 160), 140),
        state!(3, "ID VERIFICATION FAILED", (600, 160), 220),
    ],
    ways: &[
        way!(&[] => 0, &[(30, 50), (120, 50)], (75, 50)),
        way!(&[0] => 2, &[(190, 72), (190, 138)], (190, 105)),
        way!(&[0] => 1, &[(260, 50), (420, 50)], (340, 50)),
        way!(&[1] => 2, &[(460, 72), (460, 160), (260, 160)], (360, 160)),
        way!(&[1] => 3, &[(560, 72), (560, 138)], (560, 105)),
    ],
    frames: &[],
};

/// Table 9.
pub(crate) const SLOT_MAP: Layout = Layout {
    title: "Table 9: slot map of a carrier",
    size: (700, 200),
    shapes: &[
        state!(0, "NOT READ", (90, 50), 120),
        state!(1, "WAITING FOR HOST", (410, 50), 180),
        state!(2, "VERIFIED", (90, 160), 120),
        state!(3, "VERIFICATION FAILED", (510, 160), 200),
    ],
    ways: &[
        way!(&[0] => 2, &[(90, 72), (90, 138)], (90, 105)),
        way!(&[0] => 1, &[(150, 50), (320, 50)], (235, 50)),
        way!(&[1] => 2, &[(360, 72), (360, 160), (150, 160)], (255, 160)),
        way!(&[1] => 3, &[(460, 72), (460, 138)], (460, 105)),
    ],
    frames: &[],
};

/// Table 10.
pub(crate) const ACCESSING: Layout = Layout {
    title: "Table 10: accessing of a carrier",
    size: (760, 200),
    shapes: &[
        state!(0, "NOT ACCESSED", (100, 50), 150),
        state!(1, "IN ACCESS", (360, 50), 120),
        state!(2, "CARRIER COMPLETE", (640, 50), 180),
        state!(3, "CARRIER STOPPED", (360, 160), 172),
    ],
    ways: &[
        way!(&[0] => 1, &[(175, 50), (300, 50)], (237, 50)),
        way!(&[1] => 2, &[(420, 50), (550, 50)], (485, 50)),
        way!(&[1] => 3, &[(360, 72), (360, 138)], (360, 105)),
        way!(&[0] => 3, &[(100, 72), (100, 160), (274, 160)], (187, 160)),
    ],
    frames: &[],
};

/// Table 11.
pub(crate) const LOCATION: Layout = Layout {
    title: "Table 11: a location",
    size: (460, 90),
    shapes: &[
        state!(0, "UNOCCUPIED", (90, 46), 140),
        state!(1, "OCCUPIED", (380, 46), 120),
    ],
    ways: &[
        way!(&[0] => 1, &[(160, 34), (320, 34)], (240, 34)),
        way!(&[1] => 0, &[(320, 58), (160, 58)], (240, 58)),
    ],
    frames: &[],
};

/// Table 12.
pub(crate) const TRANSPORT: Layout = Layout {
    title: "Table 12: transport of a substrate",
    size: (760, 90),
    shapes: &[
        state!(0, "AT SOURCE", (175, 46), 130),
        state!(1, "AT WORK", (395, 46), 110),
        state!(2, "AT DESTINATION", (640, 46), 170),
    ],
    ways: &[
        way!(&[] => 0, &[(30, 46), (110, 46)], (70, 46)),
        way!(&[0] => 1, &[(240, 46), (340, 46)], (290, 46)),
        way!(&[1] => 2, &[(450, 46), (555, 46)], (502, 46)),
    ],
    frames: &[],
};

/// Table 13.
pub(crate) const PROCESSING: Layout = Layout {
    title: "Table 13: processing of a substrate",
    size: (760, 400),
    shapes: &[
        state!(0, "NEEDS PROCESSING", (210, 70), 180),
        state!(1, "IN PROCESS", (590, 70), 130),
        state!(2, "PROCESSED", (660, 190), 120),
        state!(3, "ABORTED", (480, 190), 110),
        state!(4, "STOPPED", (320, 190), 110),
        state!(5, "REJECTED", (170, 260), 110),
        state!(6, "LOST", (420, 370), 90),
        state!(7, "SKIPPED", (170, 190), 110),
    ],
    ways: &[
        way!(&[] => 0, &[(30, 70), (120, 70)], (60, 70)),
        way!(&[0] => 1, &[(300, 70), (525, 70)], (412, 70)),
        way!(&[1] => 2, &[(630, 92), (630, 168)], (630, 130)),
        way!(&[1] => 3, &[(550, 92), (550, 130), (500, 130), (500, 168)], (550, 111)),
        way!(&[1] => 4, &[(575, 92), (575, 240), (320, 240), (320, 212)], (450, 240)),
        way!(&[0] => 7, &[(170, 92), (170, 168)], (170, 130)),
        way!(&[0] => 4, &[(215, 92), (215, 145), (320, 145), (320, 168)], (215, 120)),
        way!(&[0] => 3, &[(260, 92), (260, 120), (460, 120), (460, 168)], (360, 120)),
        way!(&[0, 1, 2, 3, 4, 5, 7] => 6, &[(420, 300), (420, 348)], (420, 324)),
    ],
    frames: &[Frame {
        name: "",
        corner: (90, 20),
        size: (650, 280),
    }],
};

/// Table 14.
pub(crate) const PROCESS_JOB: Layout = Layout {
    title: "Table 14: a process job",
    size: (760, 440),
    shapes: &[
        state!(0, "QUEUED", (120, 70), 100),
        state!(1, "SETTING UP", (330, 70), 130),
        state!(2, "WAITING FOR START", (610, 70), 190),
        state!(3, "PROCESSING", (330, 200), 130),
        state!(4, "PROCESS COMPLETE", (106, 200), 180),
        state!(6, "PAUSING", (530, 200), 110),
        state!(7, "PAUSED", (684, 200), 100),
        state!(8, "STOPPING", (360, 345), 110),
        state!(9, "ABORTING", (610, 345), 110),
    ],
    ways: &[
        way!(&[] => 0, &[(20, 70), (70, 70)], (44, 70)),
        way!(&[0] => 1, &[(170, 70), (265, 70)], (203, 70)),
        way!(&[1] => 2, &[(395, 70), (515, 70)], (455, 70)),
        way!(&[1] => 3, &[(330, 92), (330, 178)], (330, 135)),
        way!(&[2] => 3, &[(610, 92), (610, 130), (370, 130), (370, 178)], (490, 130)),
        way!(&[3] => 4, &[(265, 200), (196, 200)], (218, 200)),
        way!(&[3] => 6, &[(395, 188), (475, 188)], (435, 188)),
        way!(&[6] => 3, &[(475, 212), (395, 212)], (435, 212)),
        way!(&[6] => 7, &[(585, 200), (634, 200)], (608, 200)),
        way!(&[7] => 3, &[(684, 222), (684, 248), (330, 248), (330, 222)], (530, 248)),
        way!(&[1, 2, 3, 6, 7] => 8, &[(360, 270), (360, 323)], (360, 296)),
        way!(&[1, 2, 3, 6, 7] => 9, &[(610, 270), (610, 323)], (610, 296)),
        way!(&[8] => 9, &[(415, 345), (555, 345)], (485, 345)),
        ending!(&[0], &[(120, 92), (120, 140)], (120, 115)),
        ending!(&[4], &[(106, 222), (106, 290)], (106, 255)),
        ending!(&[8], &[(360, 367), (360, 420)], (360, 392)),
        ending!(&[9], &[(610, 367), (610, 420)], (610, 392)),
    ],
    frames: &[Frame {
        name: "",
        corner: (240, 20),
        size: (506, 250),
    }],
};

/// Table 15.
pub(crate) const CONTROL_JOB: Layout = Layout {
    title: "Table 15: a control job",
    size: (760, 430),
    shapes: &[
        state!(0, "QUEUED", (120, 70), 100),
        state!(1, "SELECTED", (330, 70), 110),
        state!(2, "WAITING FOR START", (610, 70), 190),
        state!(3, "EXECUTING", (330, 200), 120),
        state!(4, "PAUSED", (610, 200), 100),
        state!(5, "COMPLETED", (110, 200), 130),
        state!(9, "EXECUTING|ending by stop", (330, 340), 160),
        state!(15, "EXECUTING|ending by abort", (610, 340), 160),
    ],
    ways: &[
        way!(&[] => 0, &[(20, 70), (70, 70)], (44, 70)),
        way!(&[0] => 1, &[(170, 58), (275, 58)], (203, 58)),
        way!(&[1] => 0, &[(275, 82), (170, 82)], (203, 82)),
        way!(&[1] => 2, &[(385, 70), (515, 70)], (450, 70)),
        way!(&[1] => 3, &[(330, 92), (330, 178)], (330, 135)),
        way!(&[2] => 3, &[(610, 92), (610, 135), (370, 135), (370, 178)], (490, 135)),
        way!(&[3] => 4, &[(390, 188), (560, 188)], (475, 188)),
        way!(&[4] => 3, &[(560, 212), (390, 212)], (475, 212)),
        way!(&[0] => 5, &[(110, 92), (110, 178)], (110, 135)),
        way!(&[3] => 5, &[(270, 200), (175, 200)], (205, 200)),
        way!(&[1, 2, 3, 4] => 9, &[(330, 250), (330, 318)], (330, 284)),
        way!(&[1, 2, 3, 4] => 15, &[(610, 250), (610, 318)], (610, 284)),
        way!(&[9] => 15, &[(410, 340), (530, 340)], (470, 340)),
        way!(&[9] => 5, &[(250, 340), (130, 340), (130, 222)], (190, 340)),
        way!(&[15] => 5, &[(610, 362), (610, 400), (90, 400), (90, 222)], (350, 400)),
    ],
    frames: &[Frame {
        name: "",
        corner: (240, 20),
        size: (506, 230),
    }],
};

/// Table 16.
pub(crate) const MODULE: Layout = Layout {
    title: "Table 16: a module",
    size: (560, 230),
    shapes: &[
        state!(0, "IDLE", (90, 50), 110),
        state!(1, "BUSY", (440, 50), 110),
        state!(2, "DOWN", (90, 180), 110),
    ],
    ways: &[
        way!(&[0] => 1, &[(145, 38), (385, 38)], (265, 38)),
        way!(&[1] => 0, &[(385, 62), (145, 62)], (265, 62)),
        way!(&[1] => 2, &[(440, 72), (440, 180), (145, 180)], (290, 180)),
        way!(&[0] => 2, &[(110, 72), (110, 158)], (110, 115)),
        way!(&[2] => 0, &[(70, 158), (70, 72)], (70, 115)),
    ],
    frames: &[],
};

/// Table 3, the load of the spool.
pub(crate) const SPOOL_LOAD: Layout = Layout {
    title: "Table 3: load of the spool",
    size: (620, 150),
    shapes: &[
        state!(0, "INACTIVE", (80, 46), 120),
        state!(1, "NOT FULL", (320, 46), 120),
        state!(2, "FULL", (545, 46), 100),
    ],
    ways: &[
        way!(&[0] => 1, &[(140, 34), (260, 34)], (200, 34)),
        way!(&[1] => 0, &[(260, 58), (140, 58)], (200, 58)),
        way!(&[1] => 2, &[(380, 34), (495, 34)], (437, 34)),
        way!(&[2] => 1, &[(495, 58), (380, 58)], (437, 58)),
        way!(&[2] => 0, &[(545, 68), (545, 120), (80, 120), (80, 68)], (312, 120)),
    ],
    frames: &[],
};

/// Table 3, the unload of the spool.
pub(crate) const SPOOL_UNLOAD: Layout = Layout {
    title: "Table 3: unload of the spool",
    size: (620, 90),
    shapes: &[
        state!(0, "NO OUTPUT", (310, 46), 130),
        state!(1, "TRANSMIT", (545, 46), 120),
        state!(2, "PURGE", (75, 46), 110),
    ],
    ways: &[
        way!(&[0] => 1, &[(375, 34), (485, 34)], (430, 34)),
        way!(&[1] => 0, &[(485, 58), (375, 58)], (430, 58)),
        way!(&[0] => 2, &[(245, 34), (130, 34)], (187, 34)),
        way!(&[2] => 0, &[(130, 58), (245, 58)], (187, 58)),
    ],
    frames: &[],
};

/// Table 3, the notes.
pub(crate) const NOTES: Layout = Layout {
    title: "Table 3: what becomes of a note",
    size: (760, 330),
    shapes: &[
        state!(0, "WAITING", (140, 60), 120),
        state!(1, "SPOOLED", (330, 180), 120),
        state!(2, "OPEN", (520, 60), 110),
        state!(3, "ANSWERED", (690, 60), 120),
        state!(4, "DROPPED", (330, 290), 120),
    ],
    ways: &[
        way!(&[] => 0, &[(20, 60), (80, 60)], (50, 60)),
        way!(&[0] => 2, &[(200, 60), (465, 60)], (332, 60)),
        way!(&[0] => 1, &[(160, 82), (160, 180), (270, 180)], (160, 130)),
        way!(&[0] => 4, &[(120, 82), (120, 290), (270, 290)], (120, 210)),
        way!(&[1] => 2, &[(390, 170), (500, 170), (500, 82)], (445, 170)),
        way!(&[2] => 1, &[(530, 82), (530, 192), (390, 192)], (530, 140)),
        way!(&[2] => 4, &[(560, 82), (560, 290), (390, 290)], (560, 230)),
        way!(&[1] => 4, &[(330, 202), (330, 268)], (330, 235)),
        way!(&[2] => 3, &[(575, 60), (630, 60)], (602, 60)),
    ],
    frames: &[],
};
