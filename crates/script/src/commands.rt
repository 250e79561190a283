// The first words of lines.

ghost use Rattle.std.specs.Prelude.{◌≡◌};
ghost use Rattle.script.specs.Commands.{call_named, control_of};

/// A call, by its command.
#[derive(Clone, Copy)]
pub(crate) enum Call {
    Create,
    Tmpfile,
    Open,
    Close,
    Link,
    Unlink,
    Grow,
    Cut,
    Stat,
    Sync,
    Home,
    Gc,
    Flush,
    Reclaim,
}

/// What a line that is no call begins with.
#[derive(Clone, Copy)]
pub(crate) enum Control {
    Mount,
    Unmount,
    Stop,
    Name,
    Begin,
    Step,
    Finish,
}

/// The call with this command.
#[tactic(auto, unfolding(crate::specs::Commands::call_named))]
pub(crate) fn read_call(word: &[u8]) -> Option<Call>
    ensures { result ≡ call_named word.now }
{
    match word {
        b"create" => Some(Call::Create),
        b"tmpfile" => Some(Call::Tmpfile),
        b"open" => Some(Call::Open),
        b"close" => Some(Call::Close),
        b"link" => Some(Call::Link),
        b"unlink" => Some(Call::Unlink),
        b"grow" => Some(Call::Grow),
        b"cut" => Some(Call::Cut),
        b"stat" => Some(Call::Stat),
        b"sync" => Some(Call::Sync),
        b"home" => Some(Call::Home),
        b"gc" => Some(Call::Gc),
        b"flush" => Some(Call::Flush),
        b"reclaim" => Some(Call::Reclaim),
        _ => None,
    }
}

/// What a line that begins with this word is, if it is no call.
#[tactic(auto, unfolding(crate::specs::Commands::control_of))]
pub(crate) fn read_control(word: &[u8]) -> Option<Control>
    ensures { result ≡ control_of word.now }
{
    if word == b"mount".as_slice() {
        return Some(Control::Mount);
    }
    if word == b"unmount".as_slice() {
        return Some(Control::Unmount);
    }
    if word == b"stop".as_slice() {
        return Some(Control::Stop);
    }
    if word == b"name".as_slice() {
        return Some(Control::Name);
    }
    if word == b"begin".as_slice() {
        return Some(Control::Begin);
    }
    if word == b"step".as_slice() {
        return Some(Control::Step);
    }
    if word == b"finish".as_slice() {
        return Some(Control::Finish);
    }
    None
}
