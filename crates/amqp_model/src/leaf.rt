//! The leaves of performatives: texts, symbols, binaries, and values that are carried unread. A contract sees each as
//! its content, a list of bytes, so that performatives are compared by content.
ghost use Rattle.std.specs.Prelude.{◌≡◌, IfOk, string_bytes};

use std::alloc::AllocError;
use std::marker::Model;

/// A string: UTF-8 text (AMQP 1.0 part 1, section 1.6.20).
#[derive(Debug)]
pub struct Text {
    text: String,
}

impl Drop for Text {
    /// Drops it by one call, where a derived drop is its steps at each exit of a function that holds one.
    fn drop(self) {
        let Text { text: _content } = self;
    }
}

impl Model for Text {
    ghost use Rattle.std.specs.Prelude.{List, ℕ, string_bytes};

    ghost Value = { List ℕ };

    ghost view = { λ t. string_bytes t.text };
}

impl Text {
    /// The text of a `String`, which moves in.
    pub fn new(text: String) -> Text
        ensures { result ≡ string_bytes text }
    {
        Text { text }
    }

    /// The text.
    pub fn as_str(&self) -> &str
        ensures { result.now ≡ self.now }
    {
        self.text.as_str()
    }
}

impl Clone for Text {
    ghost is_clone = { λ t u. u ≡ t };

    fn clone(&self) -> Result<Text, AllocError> {
        Ok(Text {
            text: self.text.clone()?,
        })
    }
}

impl PartialEq for Text {
    ghost use Rattle.std.specs.Cmp.Lexicographic.{pointwise};
    ghost use Rattle.std.specs.Prelude.{◌==◌};
    ghost use Rattle.std.specs.Cmp.Rules.{comparing};
    ghost use Rattle.std.proofs.Common.{rules};

    ghost eq = { pointwise ◌==◌ };

    ghost laws = { Prim.search (comparing, rules) };

    fn eq(&self, other: &Text) -> bool {
        self.text.as_bytes() == other.text.as_bytes()
    }
}

/// A symbol: ASCII text (AMQP 1.0 part 1, section 1.6.21).
#[derive(Debug)]
pub struct Symbol {
    text: String,
}

impl Drop for Symbol {
    /// Drops it by one call, where a derived drop is its steps at each exit of a function that holds one.
    fn drop(self) {
        let Symbol { text: _content } = self;
    }
}

impl Model for Symbol {
    ghost use Rattle.std.specs.Prelude.{List, ℕ, string_bytes};

    ghost Value = { List ℕ };

    ghost view = { λ t. string_bytes t.text };
}

impl Symbol {
    /// The symbol of a text, which moves in. No test for ASCII is made here: a reader of symbols makes it.
    pub fn new(text: String) -> Symbol
        ensures { result ≡ string_bytes text }
    {
        Symbol { text }
    }

    /// Its text.
    pub fn as_str(&self) -> &str
        ensures { result.now ≡ self.now }
    {
        self.text.as_str()
    }
}

impl Clone for Symbol {
    ghost is_clone = { λ t u. u ≡ t };

    fn clone(&self) -> Result<Symbol, AllocError> {
        Ok(Symbol {
            text: self.text.clone()?,
        })
    }
}

impl PartialEq for Symbol {
    ghost use Rattle.std.specs.Cmp.Lexicographic.{pointwise};
    ghost use Rattle.std.specs.Prelude.{◌==◌};
    ghost use Rattle.std.specs.Cmp.Rules.{comparing};
    ghost use Rattle.std.proofs.Common.{rules};

    ghost eq = { pointwise ◌==◌ };

    ghost laws = { Prim.search (comparing, rules) };

    fn eq(&self, other: &Symbol) -> bool {
        self.text.as_bytes() == other.text.as_bytes()
    }
}

/// A sequence of octets (AMQP 1.0 part 1, section 1.6.19).
#[derive(Debug)]
pub struct Binary {
    bytes: Vec<u8>,
}

impl Drop for Binary {
    /// Drops it by one call, where a derived drop is its steps at each exit of a function that holds one.
    fn drop(self) {
        let Binary { bytes: _content } = self;
    }
}

impl Model for Binary {
    ghost use Rattle.std.specs.Prelude.{List, ℕ};

    ghost Value = { List ℕ };

    ghost view = { λ b. b.bytes.items };
}

impl Binary {
    /// The sequence of these bytes, which move in.
    pub fn new(bytes: Vec<u8>) -> Binary
        ensures { result ≡ bytes.items }
    {
        Binary { bytes }
    }

    /// Its octets.
    pub fn as_slice(&self) -> &[u8]
        ensures { result.now ≡ self.now }
    {
        self.bytes.as_slice()
    }
}

impl Clone for Binary {
    ghost is_clone = { λ b c. c ≡ b };

    fn clone(&self) -> Result<Binary, AllocError> {
        Ok(Binary {
            bytes: self.bytes.clone()?,
        })
    }
}

impl PartialEq for Binary {
    ghost use Rattle.std.specs.Cmp.Lexicographic.{pointwise};
    ghost use Rattle.std.specs.Prelude.{◌==◌};
    ghost use Rattle.std.specs.Cmp.Rules.{comparing};
    ghost use Rattle.std.proofs.Common.{rules};

    ghost eq = { pointwise ◌==◌ };

    ghost laws = { Prim.search (comparing, rules) };

    fn eq(&self, other: &Binary) -> bool {
        self.bytes.as_slice() == other.bytes.as_slice()
    }
}

/// A map that is carried unread (AMQP 1.0 part 1, section 1.6.23), kept as its canonical encoding. So two of them are
/// equal where the maps are, however they were encoded when they came.
#[derive(Debug)]
pub struct Map {
    spelling: Vec<u8>,
}

impl Drop for Map {
    /// Drops it by one call, where a derived drop is its steps at each exit of a function that holds one.
    fn drop(self) {
        let Map { spelling: _content } = self;
    }
}

impl Model for Map {
    ghost use Rattle.std.specs.Prelude.{List, ℕ};

    ghost Value = { List ℕ };

    ghost view = { λ b. b.spelling.items };
}

impl Map {
    /// The map whose canonical encoding these bytes are.
    pub fn new(spelling: Vec<u8>) -> Map
        ensures { result ≡ spelling.items }
    {
        Map { spelling }
    }

    /// Its canonical encoding.
    pub fn as_slice(&self) -> &[u8]
        ensures { result.now ≡ self.now }
    {
        self.spelling.as_slice()
    }
}

impl Clone for Map {
    ghost is_clone = { λ b c. c ≡ b };

    fn clone(&self) -> Result<Map, AllocError> {
        Ok(Map {
            spelling: self.spelling.clone()?,
        })
    }
}

impl PartialEq for Map {
    ghost use Rattle.std.specs.Cmp.Lexicographic.{pointwise};
    ghost use Rattle.std.specs.Prelude.{◌==◌};
    ghost use Rattle.std.specs.Cmp.Rules.{comparing};
    ghost use Rattle.std.proofs.Common.{rules};

    ghost eq = { pointwise ◌==◌ };

    ghost laws = { Prim.search (comparing, rules) };

    fn eq(&self, other: &Map) -> bool {
        self.spelling.as_slice() == other.spelling.as_slice()
    }
}

/// A value of any type that is carried unread, kept as its canonical encoding.
#[derive(Debug)]
pub struct AnyValue {
    spelling: Vec<u8>,
}

impl Drop for AnyValue {
    /// Drops it by one call, where a derived drop is its steps at each exit of a function that holds one.
    fn drop(self) {
        let AnyValue { spelling: _content } = self;
    }
}

impl Model for AnyValue {
    ghost use Rattle.std.specs.Prelude.{List, ℕ};

    ghost Value = { List ℕ };

    ghost view = { λ b. b.spelling.items };
}

impl AnyValue {
    /// The value whose canonical encoding these bytes are.
    pub fn new(spelling: Vec<u8>) -> AnyValue
        ensures { result ≡ spelling.items }
    {
        AnyValue { spelling }
    }

    /// Its canonical encoding.
    pub fn as_slice(&self) -> &[u8]
        ensures { result.now ≡ self.now }
    {
        self.spelling.as_slice()
    }
}

impl Clone for AnyValue {
    ghost is_clone = { λ b c. c ≡ b };

    fn clone(&self) -> Result<AnyValue, AllocError> {
        Ok(AnyValue {
            spelling: self.spelling.clone()?,
        })
    }
}

impl PartialEq for AnyValue {
    ghost use Rattle.std.specs.Cmp.Lexicographic.{pointwise};
    ghost use Rattle.std.specs.Prelude.{◌==◌};
    ghost use Rattle.std.specs.Cmp.Rules.{comparing};
    ghost use Rattle.std.proofs.Common.{rules};

    ghost eq = { pointwise ◌==◌ };

    ghost laws = { Prim.search (comparing, rules) };

    fn eq(&self, other: &AnyValue) -> bool {
        self.spelling.as_slice() == other.spelling.as_slice()
    }
}

/// Symbols of a field that may hold several; none where the field is null or an empty array (AMQP 1.0 part 1, section
/// 1.4, `multiple`).
#[derive(Debug)]
pub struct Symbols {
    symbols: Vec<Symbol>,
}

impl Drop for Symbols {
    /// Drops it by one call, where a derived drop is its steps at each exit of a function that holds one.
    fn drop(self) {
        let Symbols { symbols: _content } = self;
    }
}

impl Model for Symbols {
    ghost use Rattle.std.specs.Prelude.{List, ℕ};

    ghost Value = { List (List ℕ) };

    ghost view = { λ s. s.symbols.items };
}

impl Symbols {
    /// The symbols of a vector, in its order.
    pub fn new(symbols: Vec<Symbol>) -> Symbols
        ensures { result ≡ symbols.items }
    {
        Symbols { symbols }
    }

    /// The symbols, in order.
    pub fn as_slice(&self) -> &[Symbol]
        ensures { result.now ≡ self.now }
    {
        self.symbols.as_slice()
    }
}
