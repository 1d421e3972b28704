use libc::net::poll;
use libc::types::pollfd;

// Waits until one of these events comes at a descriptor of the system, for so many milliseconds at most, or for good where the
// number is negative. What came, which is nothing where the time passed; None where the system refuses to tell.
pub(crate) fn ready(fd: i32, events: i16, millis: i32) -> Option<i16> {
    let mut asked = [pollfd {
        fd,
        events,
        revents: 0,
    }];
    if poll(&mut asked, millis) < 0 {
        return None;
    }
    Some(asked[0].revents)
}

// Waits for events at two descriptors, for good.
pub(crate) fn ready_of_two(first: (i32, i16), second: (i32, i16)) -> Option<(i16, i16)> {
    let mut asked = [
        pollfd {
            fd: first.0,
            events: first.1,
            revents: 0,
        },
        pollfd {
            fd: second.0,
            events: second.1,
            revents: 0,
        },
    ];
    if poll(&mut asked, -1) < 0 {
        return None;
    }
    Some((asked[0].revents, asked[1].revents))
}
