//! Questions on configurations: what a text says or where it is at fault, and the place of an address.
use case_files::{Case, CaseFault};
use route_table::{Config, Listener, Table, read_config};
use std::alloc::Global;
use std::fmt::Write;

/// What is asked.
#[derive(Clone, Copy)]
enum Question {
    /// To read the input as a configuration.
    Read,
    /// To take the standard configuration.
    Standard,
    /// The place of an address.
    Find,
    /// The router's name.
    Router,
    /// The listeners.
    Listeners,
    /// The addresses.
    Addresses,
    /// The link routes.
    LinkRoutes,
    /// The users.
    Users,
    /// How many of each.
    Counts,
}

/// The question of a case.
fn question_of(case: &Case<'_>) -> Result<Question, CaseFault> {
    match case.question {
        "read" => Ok(Question::Read),
        "standard" => Ok(Question::Standard),
        "find" => Ok(Question::Find),
        "router" => Ok(Question::Router),
        "listeners" => Ok(Question::Listeners),
        "addresses" => Ok(Question::Addresses),
        "routes" => Ok(Question::LinkRoutes),
        "users" => Ok(Question::Users),
        "counts" => Ok(Question::Counts),
        _ => Err(CaseFault::Question),
    }
}

/// The answer to a question on the configuration of a scene, which `read` and `standard` set.
///
/// # Errors
///
/// `Question` and `Missing` where the case isn't in the form; `Memory`.
pub fn answer(
    alloc: Global,
    scene: &mut Option<Config>,
    case: &Case<'_>,
) -> Result<String, CaseFault> {
    match question_of(case)? {
        Question::Read => read(alloc, scene, case),
        Question::Standard => {
            drop(scene.replace(Config::standard(alloc)?));
            Ok(String::new(alloc))
        }
        question => match scene {
            None => Err(CaseFault::Missing),
            Some(config) => told(alloc, config, question, case.words),
        },
    }
}

/// Reads the input as a configuration: nothing, or its first faulty line and the fault's number.
fn read(alloc: Global, scene: &mut Option<Config>, case: &Case<'_>) -> Result<String, CaseFault> {
    let text = case.input_text(alloc)?;
    match read_config(alloc, text.as_str()) {
        Ok(config) => {
            drop(scene.replace(config));
            Ok(String::new(alloc))
        }
        Err(fault) => {
            let number = fault.kind.number();
            Ok(format!(in alloc; "line {} fault {number}", fault.line)?)
        }
    }
}

/// The answer of a configuration to a question.
fn told(
    alloc: Global,
    config: &Config,
    question: Question,
    words: &str,
) -> Result<String, CaseFault> {
    match question {
        Question::Find => place(alloc, config, words),
        Question::Listeners => listeners(alloc, config),
        Question::Addresses => addresses(alloc, config),
        Question::LinkRoutes => routes(alloc, config),
        Question::Users => users(alloc, config),
        Question::Counts => counts(alloc, config),
        Question::Router | Question::Read | Question::Standard => {
            Ok(String::from_str(alloc, config.router_id())?)
        }
    }
}

/// The distribution of an address, and the containers that links to it and from it are routed to.
fn place(alloc: Global, config: &Config, address: &str) -> Result<String, CaseFault> {
    let table = Table::new(alloc, config)?;
    let text = place_in(alloc, &table, address);
    drop(table);
    text
}

/// The place of an address in a table.
fn place_in(alloc: Global, table: &Table, address: &str) -> Result<String, CaseFault> {
    let place = table.find(address);
    let mut text = format!(in alloc; "{:?}", place.distribution)?;
    if let Some(container) = place.route_in {
        write!(text, "; in {container}")?;
    }
    if let Some(container) = place.route_out {
        write!(text, "; out {container}")?;
    }
    Ok(text)
}

/// A line for each listener: host, port, role, whether peers have to log in, and how they may.
fn listeners(alloc: Global, config: &Config) -> Result<String, CaseFault> {
    let mut lines = String::new(alloc);
    for listener in config.listeners() {
        put_listener(&mut lines, listener)?;
    }
    Ok(lines)
}

/// Appends the line of a listener.
fn put_listener(lines: &mut String, listener: &Listener) -> Result<(), CaseFault> {
    let host = listener.host.as_str();
    let port = listener.port;
    let role = listener.role;
    let authenticates = listener.authenticate_peer;
    write!(lines, "{host} {port} {role:?} {authenticates}")?;
    for mechanism in listener.mechanisms.as_slice() {
        write!(lines, " {mechanism:?}")?;
    }
    lines.push('\n')?;
    Ok(())
}

/// A line for each address: its distribution and its prefix.
fn addresses(alloc: Global, config: &Config) -> Result<String, CaseFault> {
    let mut lines = String::new(alloc);
    for address in config.addresses() {
        let prefix = address.prefix.as_str();
        let distribution = address.distribution;
        writeln!(lines, "{distribution:?} {prefix}")?;
    }
    Ok(lines)
}

/// A line for each link route: its direction, its container and its prefix.
fn routes(alloc: Global, config: &Config) -> Result<String, CaseFault> {
    let mut lines = String::new(alloc);
    for route in config.link_routes() {
        let prefix = route.prefix.as_str();
        let container = route.container_id.as_str();
        let direction = route.direction;
        writeln!(lines, "{direction:?} {container} {prefix}")?;
    }
    Ok(lines)
}

/// A line for each user: the name and the password.
fn users(alloc: Global, config: &Config) -> Result<String, CaseFault> {
    let mut lines = String::new(alloc);
    for user in config.users() {
        let name = user.name.as_str();
        let password = user.password.as_str();
        writeln!(lines, "{name} {password}")?;
    }
    Ok(lines)
}

/// How many listeners, addresses, link routes and users there are.
fn counts(alloc: Global, config: &Config) -> Result<String, CaseFault> {
    let listeners = config.listeners().len();
    let addresses = config.addresses().len();
    let routes = config.link_routes().len();
    let users = config.users().len();
    Ok(format!(in alloc;
        "listeners {listeners} addresses {addresses} routes {routes} users {users}"
    )?)
}
