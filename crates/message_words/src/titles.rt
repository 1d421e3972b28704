//! How messages are called (SEMI E5, stream and function; docs/profile/messages.md).

/// How a data message is called. None where this profile has no such message.
pub(crate) fn title(stream: u8, function: u8) -> Option<&'static str> {
    if function == 0 {
        return Some("the transaction is aborted");
    }
    match stream {
        1 => of_stream_1(function),
        2 => of_stream_2(function),
        3 => of_stream_3(function),
        5 => of_stream_5(function),
        6 => of_stream_6(function),
        9 => of_stream_9(function),
        14 => of_stream_14(function),
        16 => of_stream_16(function),
        _ => None,
    }
}

// Equipment status.
fn of_stream_1(function: u8) -> Option<&'static str> {
    match function {
        1 => Some("are you there"),
        2 => Some("on line data"),
        3 => Some("selected equipment status request"),
        4 => Some("selected equipment status data"),
        11 => Some("status variable namelist request"),
        12 => Some("status variable namelist"),
        13 => Some("establish communications"),
        14 => Some("establish communications acknowledge"),
        15 => Some("request OFF-LINE"),
        16 => Some("OFF-LINE acknowledge"),
        17 => Some("request ON-LINE"),
        18 => Some("ON-LINE acknowledge"),
        _ => None,
    }
}

// Equipment control.
fn of_stream_2(function: u8) -> Option<&'static str> {
    match function {
        13 => Some("equipment constant request"),
        14 => Some("equipment constant data"),
        15 => Some("new equipment constants"),
        16 => Some("new equipment constant acknowledge"),
        17 => Some("date and time request"),
        18 => Some("date and time data"),
        29 => Some("equipment constant namelist request"),
        30 => Some("equipment constant namelist"),
        31 => Some("date and time set"),
        32 => Some("date and time set acknowledge"),
        _ => of_reports_and_commands(function),
    }
}

// Reports, commands and spooling, of stream 2 too.
fn of_reports_and_commands(function: u8) -> Option<&'static str> {
    match function {
        33 => Some("define report"),
        34 => Some("define report acknowledge"),
        35 => Some("link event report"),
        36 => Some("link event report acknowledge"),
        37 => Some("enable or disable event report"),
        38 => Some("enable or disable event report acknowledge"),
        41 => Some("host command"),
        42 => Some("host command acknowledge"),
        43 => Some("reset spooling streams and functions"),
        44 => Some("reset spooling acknowledge"),
        _ => None,
    }
}

// Materials.
fn of_stream_3(function: u8) -> Option<&'static str> {
    match function {
        17 => Some("carrier action request"),
        18 => Some("carrier action acknowledge"),
        25 => Some("port action request"),
        26 => Some("port action acknowledge"),
        27 => Some("change access"),
        28 => Some("change access acknowledge"),
        _ => None,
    }
}

// Alarms.
fn of_stream_5(function: u8) -> Option<&'static str> {
    match function {
        1 => Some("alarm report"),
        2 => Some("alarm report acknowledge"),
        3 => Some("enable or disable alarm"),
        4 => Some("enable or disable alarm acknowledge"),
        5 => Some("list alarms request"),
        6 => Some("list alarm data"),
        7 => Some("list enabled alarms request"),
        8 => Some("list enabled alarm data"),
        _ => None,
    }
}

// Data collection.
fn of_stream_6(function: u8) -> Option<&'static str> {
    match function {
        11 => Some("event report"),
        12 => Some("event report acknowledge"),
        15 => Some("event report request"),
        16 => Some("event report data"),
        19 => Some("individual report request"),
        20 => Some("individual report data"),
        23 => Some("request spooled data"),
        24 => Some("request spooled data acknowledge"),
        _ => None,
    }
}

// System errors.
fn of_stream_9(function: u8) -> Option<&'static str> {
    match function {
        1 => Some("unrecognized device id"),
        3 => Some("unrecognized stream"),
        5 => Some("unrecognized function"),
        7 => Some("illegal data"),
        9 => Some("transaction timer timeout"),
        11 => Some("data too long"),
        _ => None,
    }
}

// Object services.
fn of_stream_14(function: u8) -> Option<&'static str> {
    match function {
        9 => Some("create object"),
        10 => Some("create object acknowledge"),
        _ => None,
    }
}

// Processing management.
fn of_stream_16(function: u8) -> Option<&'static str> {
    match function {
        5 => Some("process job command"),
        6 => Some("process job command acknowledge"),
        11 => Some("process job create"),
        12 => Some("process job create acknowledge"),
        17 => Some("process job dequeue"),
        18 => Some("process job dequeue acknowledge"),
        19 => Some("process job list request"),
        20 => Some("process job list data"),
        21 => Some("process job space request"),
        22 => Some("process job space data"),
        27 => Some("control job command"),
        28 => Some("control job command acknowledge"),
        _ => None,
    }
}
