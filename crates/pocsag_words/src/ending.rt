/// How a transmission may end. With the open end, which is the usual one, the end of the
/// transmission also ends the last message. With the closed end the last codeword is no message
/// codeword, so that the last message ends inside the transmission. With the idle end the last
/// codeword is an idle one: some receivers show a page only when another codeword than a message
/// follows it.
#[derive(Clone, Copy, PartialEq, Eq, Debug)]
pub enum End {
    Open,
    Closed,
    Idle,
}
