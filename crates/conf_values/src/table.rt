//! The table of keys.

ghost use Rattle.std.specs.Prelude.{◌≡◌, map};
ghost use Rattle.std.specs.List.{list_any};
ghost use Rattle.conf_values.specs.Table.{is_in, is_place_in, is_row_of, is_table_key, only_version, is_same_place, is_same_version, place_path, places, row_of, rows};

/// A version of configurations.
#[derive(Clone, Copy)]
pub enum Version {
    /// One policy, in the table `policy`.
    One,
    /// Several policies, in the array `policies`.
    Two,
}

/// A table whose keys are fixed, or several that have the same keys.
#[derive(Clone, Copy)]
pub enum TableName {
    /// The document itself.
    Top,
    /// The table `gateway`.
    Gateway,
    /// The tables of the array `policies`.
    Policies,
    /// The table `policy`.
    Policy,
    /// The table `sign`.
    Sign,
}

/// What is asked of a key's value.
#[derive(Clone, Copy)]
pub enum ValueRule {
    /// The integer 1 or 2.
    Version,
    /// `http` or `https`.
    Scheme,
    /// A table from keyids to keys in base64.
    Keys,
    /// A table from field names to kinds.
    Types,
    /// A table.
    Table,
    /// A key of a Dictionary.
    Label,
    /// A keyid of `keys`.
    Keyid,
    /// A list of covered components.
    Components,
    /// Seconds, at least one and at most a day.
    Seconds,
    /// A boolean.
    Flag,
    /// Printable bytes of ASCII.
    Tag,
    /// `none`, `sha-256` or `sha-512`.
    Digest,
    /// Seconds, at least one, at most a day together with twice the skew of `policy`.
    MaxAge,
    /// Seconds, at least one, at most a week together with twice the skew of the same table.
    LongMaxAge,
    /// Seconds, at most an hour.
    Skew,
    /// How many nonces, at least one and at most `MAX_ENTRIES`.
    Nonces,
    /// `optional` or `require`.
    Expires,
    /// `ignore`, `check` or `require`.
    NonceUse,
    /// `ignore`, `content` or `always`.
    DigestUse,
    /// An array of lines of a script, at most `MAX_SCRIPT_LINES`.
    Steps,
    /// An array of tables, at least one and at most `MAX_POLICIES`, no two of them with one tag.
    Policies,
}

/// A key.
#[derive(Clone, Copy)]
pub struct Row {
    /// Its path in faults.
    pub path: &'static str,
    /// The table that has it.
    pub place: TableName,
    /// Its name in that table.
    pub key: &'static str,
    /// What is asked of its value.
    pub rule: ValueRule,
    /// Whether the table has to have it.
    pub required: bool,
    /// The version that has it, where not each of them has it.
    pub only: Option<Version>,
}

/// A row by its path, its table, its name there and its rule; `required` where it has to be there,
/// and `only` with a version where no other has it.
macro_rules! row {
    ($path:literal, $place:ident, $key:literal, $rule:ident) => {
        Row {
            path: $path,
            place: TableName::$place,
            key: $key,
            rule: ValueRule::$rule,
            required: false,
            only: None,
        }
    };
    ($path:literal, $place:ident, $key:literal, $rule:ident, required) => {
        Row {
            path: $path,
            place: TableName::$place,
            key: $key,
            rule: ValueRule::$rule,
            required: true,
            only: None,
        }
    };
    ($path:literal, $place:ident, $key:literal, $rule:ident, only $version:ident) => {
        Row {
            path: $path,
            place: TableName::$place,
            key: $key,
            rule: ValueRule::$rule,
            required: false,
            only: Some(Version::$version),
        }
    };
}

/// The keys, in the order of their paths' bytes.
const ROWS: [Row; 36] = [
    row!("gateway", Top, "gateway", Table),
    row!("gateway.label", Gateway, "label", Label),
    row!("gateway.steps", Gateway, "steps", Steps),
    row!("keys", Top, "keys", Keys),
    row!("nonces", Top, "nonces", Nonces, only Two),
    row!("policies", Top, "policies", Policies, only Two),
    row!("policies.digest", Policies, "digest", DigestUse, only Two),
    row!("policies.expires", Policies, "expires", Expires, only Two),
    row!("policies.max-age", Policies, "max-age", LongMaxAge, only Two),
    row!("policies.nonce", Policies, "nonce", NonceUse, only Two),
    row!("policies.require-request", Policies, "require-request", Components, only Two),
    row!("policies.require-response", Policies, "require-response", Components, only Two),
    row!("policies.skew", Policies, "skew", Skew, only Two),
    row!("policies.tag", Policies, "tag", Tag, only Two),
    row!("policy", Top, "policy", Table, only One),
    row!("policy.digest", Policy, "digest", DigestUse, only One),
    row!("policy.expires", Policy, "expires", Expires, only One),
    row!("policy.max-age", Policy, "max-age", MaxAge, only One),
    row!("policy.nonce", Policy, "nonce", NonceUse, only One),
    row!("policy.nonces", Policy, "nonces", Nonces, only One),
    row!("policy.require-request", Policy, "require-request", Components, only One),
    row!("policy.require-response", Policy, "require-response", Components, only One),
    row!("policy.skew", Policy, "skew", Skew, only One),
    row!("policy.tag", Policy, "tag", Tag, only One),
    row!("scheme", Top, "scheme", Scheme),
    row!("sign", Top, "sign", Table),
    row!("sign.alg", Sign, "alg", Flag),
    row!(
        "sign.components-request",
        Sign,
        "components-request",
        Components
    ),
    row!(
        "sign.components-response",
        Sign,
        "components-response",
        Components
    ),
    row!("sign.digest", Sign, "digest", Digest),
    row!("sign.expires-after", Sign, "expires-after", Seconds),
    row!("sign.keyid", Sign, "keyid", Keyid, required),
    row!("sign.label", Sign, "label", Label, required),
    row!("sign.tag", Sign, "tag", Tag),
    row!("types", Top, "types", Types),
    row!("version", Top, "version", Version),
];

/// The tables whose keys are fixed, in the order of their paths' bytes.
const PLACES: [TableName; 5] = [
    TableName::Gateway,
    TableName::Policies,
    TableName::Policy,
    TableName::Sign,
    TableName::Top,
];

impl Version {
    fn is_same(self, other: Version) -> bool
        ensures { result ≡ is_same_version self other }
    {
        matches!(
            (self, other),
            (Version::One, Version::One) | (Version::Two, Version::Two)
        )
    }
}

impl TableName {
    /// Its path in faults.
    pub fn path(self) -> &'static str
        ensures { result.now ≡ place_path self }
    {
        match self {
            TableName::Gateway => "gateway",
            TableName::Policies => "policies",
            TableName::Policy => "policy",
            TableName::Sign => "sign",
            TableName::Top => "top",
        }
    }

    /// The version that has it, where not each of them has it.
    fn only(self) -> Option<Version>
        ensures { result ≡ only_version self }
    {
        match self {
            TableName::Policies => Some(Version::Two),
            TableName::Policy => Some(Version::One),
            TableName::Gateway | TableName::Sign | TableName::Top => None,
        }
    }

    /// Whether a text of the version has the table. In a text of none of the versions what any of
    /// them has is known.
    pub fn is_in(self, version: Option<Version>) -> bool
        ensures { result ≡ is_place_in version self }
    {
        is_in(self.only(), version)
    }

    fn is_same(self, other: TableName) -> bool
        ensures { result ≡ is_same_place self other }
    {
        matches!(
            (self, other),
            (TableName::Gateway, TableName::Gateway)
                | (TableName::Policies, TableName::Policies)
                | (TableName::Policy, TableName::Policy)
                | (TableName::Sign, TableName::Sign)
                | (TableName::Top, TableName::Top)
        )
    }
}

/// Whether what only this version has, or each where it is none, is known in a text of the version,
/// or in one of none of them.
fn is_in(only: Option<Version>, version: Option<Version>) -> bool
    ensures { result ≡ is_in only version }
{
    match (only, version) {
        (Some(only), Some(version)) => only.is_same(version),
        _ => true,
    }
}

/// Whether the row is that of the key of the table, in a text of the version.
fn is_row_of(row: &Row, version: Option<Version>, place: TableName, key: &str) -> bool
    ensures { result ≡ is_row_of version place key.now (row_of row.now) }
{
    is_in(row.only, version) && row.place.is_same(place) && row.key == key
}

fn is_among(rows: &[Row], version: Option<Version>, place: TableName, key: &str) -> bool
    ensures { result ≡ list_any (is_row_of version place key.now) (map row_of rows.now) }
{
    for row in rows {
        if is_row_of(row, version, place, key) {
            return true;
        }
    }
    false
}

/// The keys, in the order of their paths' bytes.
pub fn rows() -> &'static [Row]
    ensures { map row_of result.now ≡ rows }
{
    &ROWS
}

/// The tables whose keys are fixed, in the order of their paths' bytes.
pub fn places() -> &'static [TableName]
    ensures { result.now ≡ places }
{
    &PLACES
}

/// Whether the table has a key of that name, in a text of the version. In a text of none of the
/// versions the keys of all of them are known.
pub fn is_table_key(version: Option<Version>, place: TableName, key: &str) -> bool
    ensures { result ≡ is_table_key version place key.now }
{
    is_among(&ROWS, version, place, key)
}
