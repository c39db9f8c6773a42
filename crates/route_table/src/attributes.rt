// The kinds of section, their attributes, and the values that these take.
ghost use Rattle.std.specs.Prelude.{◌≡◌};
ghost use Rattle.route_table.specs.File.{most};
ghost use Rattle.route_table.specs.Values.{kind_code, is_kind, kind_of, attribute_code, is_attribute, attribute_of, router_attribute, listener_attribute, address_attribute, link_route_attribute, user_attribute};

/// A kind of section.
#[derive(Clone, Copy, Debug)]
pub enum SectionKind {
    Router,
    Listener,
    Address,
    LinkRoute,
    User,
}

impl SectionKind {
    fn code(self) -> u8
        ensures { result ≡ kind_code self }
    {
        match self {
            SectionKind::Router => 0,
            SectionKind::Listener => 1,
            SectionKind::Address => 2,
            SectionKind::LinkRoute => 3,
            SectionKind::User => 4,
        }
    }

    /// Whether the two are one kind.
    pub fn is(self, other: SectionKind) -> bool
        ensures { result ≡ is_kind self other }
    {
        self.code() == other.code()
    }

    /// The kind of this name.
    pub fn named(name: &str) -> Option<SectionKind>
        ensures { result ≡ kind_of name.now }
    {
        if name == "router" {
            Some(SectionKind::Router)
        } else if name == "listener" {
            Some(SectionKind::Listener)
        } else if name == "address" {
            Some(SectionKind::Address)
        } else if name == "linkRoute" {
            Some(SectionKind::LinkRoute)
        } else if name == "user" {
            Some(SectionKind::User)
        } else {
            None
        }
    }

    /// How many sections of the kind a file may have.
    pub fn most(self) -> usize
        ensures { result ≡ most self }
    {
        match self {
            SectionKind::Router => 1,
            SectionKind::Listener
            | SectionKind::Address
            | SectionKind::LinkRoute
            | SectionKind::User => 1024,
        }
    }

    /// The attribute of a key in such a section.
    pub fn attribute(self, key: &str) -> Option<Attribute>
        ensures { result ≡ attribute_of self key.now }
    {
        match self {
            SectionKind::Router => router_attribute(key),
            SectionKind::Listener => listener_attribute(key),
            SectionKind::Address => address_attribute(key),
            SectionKind::LinkRoute => link_route_attribute(key),
            SectionKind::User => user_attribute(key),
        }
    }
}

/// An attribute of a section.
#[derive(Clone, Copy, Debug)]
pub enum Attribute {
    Id,
    Mode,
    Host,
    Port,
    Role,
    AuthenticatePeer,
    SaslMechanisms,
    Prefix,
    Distribution,
    ContainerId,
    Direction,
    Name,
    Password,
}

impl Attribute {
    fn code(self) -> u8
        ensures { result ≡ attribute_code self }
    {
        match self {
            Attribute::Id => 0,
            Attribute::Mode => 1,
            Attribute::Host => 2,
            Attribute::Port => 3,
            Attribute::Role => 4,
            Attribute::AuthenticatePeer => 5,
            Attribute::SaslMechanisms => 6,
            Attribute::Prefix => 7,
            Attribute::Distribution => 8,
            Attribute::ContainerId => 9,
            Attribute::Direction => 10,
            Attribute::Name => 11,
            Attribute::Password => 12,
        }
    }

    /// Whether the two are one attribute.
    pub fn is(self, other: Attribute) -> bool
        ensures { result ≡ is_attribute self other }
    {
        self.code() == other.code()
    }
}

fn router_attribute(key: &str) -> Option<Attribute>
    ensures { result ≡ router_attribute key.now }
{
    if key == "id" {
        Some(Attribute::Id)
    } else if key == "mode" {
        Some(Attribute::Mode)
    } else {
        None
    }
}

fn listener_attribute(key: &str) -> Option<Attribute>
    ensures { result ≡ listener_attribute key.now }
{
    if key == "host" {
        Some(Attribute::Host)
    } else if key == "port" {
        Some(Attribute::Port)
    } else if key == "role" {
        Some(Attribute::Role)
    } else if key == "authenticatePeer" {
        Some(Attribute::AuthenticatePeer)
    } else if key == "saslMechanisms" {
        Some(Attribute::SaslMechanisms)
    } else {
        None
    }
}

fn address_attribute(key: &str) -> Option<Attribute>
    ensures { result ≡ address_attribute key.now }
{
    if key == "prefix" {
        Some(Attribute::Prefix)
    } else if key == "distribution" {
        Some(Attribute::Distribution)
    } else {
        None
    }
}

fn link_route_attribute(key: &str) -> Option<Attribute>
    ensures { result ≡ link_route_attribute key.now }
{
    if key == "prefix" {
        Some(Attribute::Prefix)
    } else if key == "containerId" {
        Some(Attribute::ContainerId)
    } else if key == "direction" {
        Some(Attribute::Direction)
    } else {
        None
    }
}

fn user_attribute(key: &str) -> Option<Attribute>
    ensures { result ≡ user_attribute key.now }
{
    if key == "name" {
        Some(Attribute::Name)
    } else if key == "password" {
        Some(Attribute::Password)
    } else {
        None
    }
}
