//! A person plays.

use fibs_cli::arguments::Call;
use fibs_cli::objects::front::Objects;
use fibs_connect::typed_line::TypedLine;
use fibs_connect::typed_lines::TypedLines;
use fibs_connect::watch::{Patience, Watch};
use fibs_connect::{answer_lines, converse_on, converse_with};
use fibs_engine::dial::{Dial, Endpoint, TcpDial};
use fibs_engine::fault::EngineFault;
use fibs_engine::limits::MOST_INPUT_READS;
use fibs_engine::logging::{LoggedServer, open};
use fibs_engine::noting::Noted;
use fibs_engine::pacing::{Pace, PacedServer};
use fibs_engine::status::Status;
use fibs_engine::writing::write_bytes;
use fibs_session::{Login, PlainFault};
use fibs_terminal::Terminal;
use fibs_terminal::ordering::{Dues, OrderedInput, OrderedServer, OrderedWatch};
use fibs_wording::environment::{Clocks, Config, RecordFile, Settings, terminal_settings};
use fibs_wording::reasons::append_login_fault;
use std::alloc::Global;
use std::io::{IsTerminal, Read, Stdout, Write};
use std::net::{Net, TcpListener, TcpStream};
use std::time::{Clock, Duration};

/// Where the server of a call is; each read of it waits so many milliseconds.
fn endpoint_of(call: Call<'_>, millis: u64) -> Endpoint<'_> {
    Endpoint {
        host: call.host,
        port: call.port,
        quiet: Duration::from_millis(millis),
    }
}

/// What is printed if the log can't be written.
const NO_LOG: &[u8] = b"fibs: the log can't be opened\n";

/// Whether the log that is asked for can be written.
fn can_log(rt: &HostRuntime, path: Option<&str>) -> bool {
    match path {
        None => true,
        Some(path) => open(rt, path).is_ok(),
    }
}

/// What an engine answered over a terminal, which knows whether it stopped since memory ran out.
pub fn unless_memory_ran_out<T, W: Write + Drop, C: Clock + Drop>(
    answer: Result<T, EngineFault>,
    front: &Terminal<'_, W, C>,
) -> Result<T, EngineFault> {
    match answer {
        Err(_) if front.is_out_of_memory() => Err(EngineFault::Memory),
        answer => answer,
    }
}

/// Says in words why nobody can log in so.
fn say_login_fault(rt: &HostRuntime, why: PlainFault) -> Result<u8, EngineFault> {
    let mut text = Vec::new(rt.alloc());
    append_login_fault(why, &mut text)?;
    text.push(b'\n')?;
    write_bytes(text.as_slice(), &mut rt.stderr())?;
    Ok(Status::Refused.code())
}

/// Answers typed lines at a terminal, and gives the standing order if the user's own settings ask for it; ends if the
/// server refuses the login. At the end the window has the title that it had before.
fn answer_at_terminal<D: Dial, R: Read, V: Patience, W: Write + Drop, C: Clock + Copy + Drop>(
    clock: C,
    server: &mut D,
    alloc: Global,
    login: Login,
    lines: &mut TypedLines,
    input: &mut R,
    watch: &mut V,
    front: &mut Terminal<'_, W, C>,
    orders_roll: bool,
    dues: &Dues,
) -> Result<u8, EngineFault> {
    let mut server = OrderedServer::new(server, orders_roll, dues);
    let mut watch = OrderedWatch::new(watch, clock, dues);
    let answer = answer_lines(&mut server, alloc, login, lines, input, &mut watch, front);
    let kept = front.end_record().map_err(EngineFault::from);
    let left = front.leave();
    let status = unless_memory_ran_out(answer, front)?;
    unless_memory_ran_out(kept, front)?;
    left?;
    Ok(if dues.end.get() {
        Status::Refused.code()
    } else {
        status
    })
}

/// Makes the terminal of what is shown there, of the user's own settings and of his files, and talks with a server.
fn talk_at_terminal<'a, D: Dial, R: Read, V: Patience>(
    rt: &'a HostRuntime,
    config: &Config,
    shown: Settings<'a>,
    dues: &'a Dues,
    server: &mut D,
    login: Login,
    lines: &mut TypedLines,
    input: &mut R,
    watch: &mut V,
    out: &mut Noted<Stdout>,
) -> Result<u8, EngineFault> {
    let alloc = rt.alloc();
    let mut front = Terminal::new(alloc, &mut *out, rt, shown);
    front.ask_for_boards(&dues.board);
    front.fix_by(&dues.fix);
    let configured = front.configure(config).map_err(EngineFault::from);
    unless_memory_ran_out(configured, &front)?;
    front.keep_record(RecordFile::of(rt)?);
    front.reconnect_by(&dues.open_at);
    let orders_roll = config.orders_roll();
    answer_at_terminal(
        rt,
        server,
        alloc,
        login,
        lines,
        input,
        watch,
        &mut front,
        orders_roll,
        dues,
    )
}

/// Talks with a server at a terminal. The first line is the password.
fn play_at_terminal<D: Dial, R: Read, V: Patience>(
    rt: &HostRuntime,
    server: &mut D,
    call: Call<'_>,
    input: &mut R,
    watch: &mut V,
    out: &mut Noted<Stdout>,
) -> Result<u8, EngineFault> {
    let config = Config::read(rt)?;
    let clocks = Clocks::read(rt);
    let mut lines = TypedLines::new(MOST_INPUT_READS);
    let mut line = TypedLine::new();
    // what is read with the password may begin a line
    let dues = Dues::new();
    let mut input = OrderedInput::new(input, &dues);
    lines.read_line(&mut input, &mut line)?;
    if rt.stdin().is_terminal() {
        input.quit_at_end();
    }
    let login = match Login::new(call.name.as_bytes(), line.as_slice()) {
        Err(why) => return say_login_fault(rt, why),
        Ok(login) => login,
    };
    let shown = terminal_settings(rt, clocks.zone(), call.host, call.port);
    talk_at_terminal(
        rt, &config, shown, &dues, server, login, &mut lines, &mut input, watch, out,
    )
}

/// Talks with a server, and prints the plain account. The first line is the password.
fn print_all<D: Dial, R: Read, V: Watch>(
    rt: &HostRuntime,
    server: &mut D,
    call: Call<'_>,
    input: &mut R,
    watch: &mut V,
    out: &mut Noted<Stdout>,
) -> Result<u8, EngineFault> {
    let (alloc, name, mut err) = (rt.alloc(), call.name.as_bytes(), rt.stderr());
    converse_with(
        server,
        alloc,
        name,
        MOST_INPUT_READS,
        input,
        watch,
        out,
        &mut err,
    )
}

/// Talks with a server, and prints a JSON object for each line. The first line is the password.
fn print_objects<D: Dial, R: Read, V: Watch>(
    rt: &HostRuntime,
    server: &mut D,
    call: Call<'_>,
    input: &mut R,
    watch: &mut V,
    out: &mut Noted<Stdout>,
) -> Result<u8, EngineFault> {
    let (alloc, name, mut err) = (rt.alloc(), call.name.as_bytes(), rt.stderr());
    let mut front = Objects::new(alloc, out);
    let answer = converse_on(
        server,
        alloc,
        name,
        MOST_INPUT_READS,
        input,
        watch,
        &mut front,
        &mut err,
    );
    match answer {
        Err(_) if front.is_out_of_memory() => Err(EngineFault::Memory),
        answer => answer,
    }
}

/// Talks with a server, and prints what an engine prints: objects, if they are asked for, else the plain account.
fn print<D: Dial, R: Read, V: Watch>(
    rt: &HostRuntime,
    server: &mut D,
    call: Call<'_>,
    input: &mut R,
    watch: &mut V,
    out: &mut Noted<Stdout>,
) -> Result<u8, EngineFault> {
    if call.json {
        print_objects(rt, server, call, input, watch, out)
    } else {
        print_all(rt, server, call, input, watch, out)
    }
}

/// Talks with a server, which is read at this pace: as a terminal shows it, if the standard output
/// is one and no objects are asked for, else as the engines print it; and with a log, if one is asked for.
pub fn play<N: Net<Listener = TcpListener, Stream = TcpStream>, R: Read, V: Patience>(
    rt: &HostRuntime,
    net: &N,
    call: Call<'_>,
    pace: Pace,
    input: &mut R,
    watch: &mut V,
    out: &mut Noted<Stdout>,
) -> Result<u8, EngineFault> {
    if !can_log(rt, call.log) {
        // if it can't be printed, the status alone says it
        let _said = write_bytes(NO_LOG, &mut rt.stderr());
        return Ok(Status::Device.code());
    }
    let mut server = TcpDial::new(net, endpoint_of(call, pace.millis));
    if rt.stdout().is_terminal() && !call.json {
        let mut paced = PacedServer::new(server, pace);
        if call.log.is_none() {
            return play_at_terminal(rt, &mut paced, call, input, watch, out);
        }
        let mut logged = LoggedServer::new(paced, rt, call.log);
        return play_at_terminal(rt, &mut logged, call, input, watch, out);
    }
    if call.log.is_none() {
        return print(rt, &mut server, call, input, watch, out);
    }
    let mut logged = LoggedServer::new(server, rt, call.log);
    print(rt, &mut logged, call, input, watch, out)
}
