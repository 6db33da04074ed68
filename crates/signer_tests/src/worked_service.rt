//! What the author of a service signer writes: a credential, two providers in a chain, and a service; and
//! how calls are signed with these. docs/GUIDE.md walks through this file.
ghost use Rattle.std.specs.Prelude.{◌≡◌, ◌≢◌, true, ⊤, length, IfOk, IfSome};
ghost use Rattle.signer_tests.specs.Usable.{is_before};
ghost use Rattle.credentials.specs.declared.polled.Polled.{Polled};
ghost use Rattle.sequential_signer.specs.Deadline.{operation_end};

use crate::one_call::told_call;
use crate::told::{Told, is_told};
use credentials::{
    Context, FileRead, NoopCommandExecute, NoopHttpSend, Polled, ProvideCredential,
    ProvideCredentialChain, Providers, SignRequest, StaticEnv,
};
use hmac_core::hash;
use sequential_signer::{DeadlineRule, SigningCredential, operation_end};
use sign_base::{Error, ErrorKind, Field, Head, NoMemory, Octets, Redact, Timestamp};
use sign_request::{SigningRequest, parts_of};
use signer::Signer;
use std::alloc::Global;
use std::collections::HashMap;
use std::fmt;
use std::marker::Model;
use std::time::Duration;

/// An access key and its secret, which can be used until they expire.
#[derive(Drop)]
struct AccessKey {
    id: String,
    secret: String,
    /// None where the key does not expire.
    expires: Option<Timestamp>,
}

/// Contracts see a key by its texts, so a copy in another vector is an equal key.
impl Model for AccessKey {
    ghost use Rattle.std.specs.String.{string_bytes};
    ghost use Rattle.signer_tests.specs.Usable.{KeyView};

    ghost Value = { KeyView };

    ghost view = { λ key. record {
      id = string_bytes key.id;
      secret = string_bytes key.secret;
      expires = key.expires;
    } };
}

/// Of the secret it shows what `Redact` shows.
impl fmt::Debug for AccessKey {
    fn fmt<W: fmt::Write>(&self, f: &mut fmt::Formatter<W>) -> fmt::Result {
        let mut parts = f.debug_struct("AccessKey");
        parts.field("id", &self.id);
        parts.field("secret", &Redact::from(&self.secret));
        parts.finish()
    }
}

impl SigningCredential for AccessKey {
    const NAME: &'static str = "AccessKey";

    ghost valid = { λ key now. is_before key.expires now };

    ghost valid_at = { λ key moment now. is_before key.expires moment };

    fn is_valid(&self, now: Timestamp) -> bool {
        is_before(self.expires, now)
    }

    fn is_valid_at(&self, ts: Timestamp, _now: Timestamp) -> bool {
        is_before(self.expires, ts)
    }

    fn try_clone(&self, alloc: Global) -> Result<AccessKey, NoMemory<()>> {
        Ok(AccessKey {
            id: String::from_str(alloc, self.id.as_str())?,
            secret: String::from_str(alloc, self.secret.as_str())?,
            expires: self.expires,
        })
    }
}

/// Whether the moment comes before the key expires.
fn is_before(expires: Option<Timestamp>, moment: Timestamp) -> bool
    ensures { result ≡ is_before expires moment }
{
    match expires {
        Some(expires) => moment < expires,
        None => true,
    }
}

/// One file with a text. A read of it answers at its second poll, as one of a disk might.
#[derive(Drop)]
struct KeyFile {
    path: &'static str,
    text: &'static str,
}

/// A read that was begun: whether it was polled, and whether there is such a file.
#[derive(Drop)]
struct KeyFileRead {
    polled: bool,
    found: bool,
}

impl FileRead for KeyFile {
    type Read = KeyFileRead;

    ghost started = { λ file path read. ⊤ };

    ghost ready = { λ file read. read.polled ≡ true };

    ghost gives = { λ file path answer. ⊤ };

    fn file_read(&self, _alloc: Global, path: &str) -> Result<KeyFileRead, NoMemory<()>> {
        Ok(KeyFileRead {
            polled: false,
            found: path == self.path,
        })
    }

    fn poll_read(&self, alloc: Global, read: &mut KeyFileRead) -> Polled<Vec<u8>> {
        if !read.polled {
            read.polled = true;
            return Polled::Pending;
        }
        if !read.found {
            return no_such_file(alloc);
        }
        match Vec::from_slice(alloc, self.text.as_bytes()) {
            Ok(bytes) => Polled::Ready(bytes),
            Err(_) => Polled::OutOfMemory,
        }
    }
}

fn no_such_file(alloc: Global) -> Polled<Vec<u8>>
    ensures { result ≢ Polled.Pending }
{
    match Error::config_invalid(alloc, "no such file") {
        Ok(error) => Polled::Failed(error),
        Err(_) => Polled::OutOfMemory,
    }
}

/// What the providers and the service work in.
type KeyContext = Context<KeyFile, NoopHttpSend, StaticEnv, NoopCommandExecute>;

/// Where a key may come from. A chain has providers of one type, so this is an enum.
#[derive(Drop)]
enum KeyProvider {
    /// The variables `ACCESS_KEY_ID` and `SECRET_ACCESS_KEY`. Their key does not expire.
    Environment,
    /// A file that has the id, the secret, and the second at which the key expires, between spaces.
    File(&'static str),
}

/// A load that was begun.
#[derive(Drop)]
enum KeyLoad {
    Environment,
    Reading(KeyFileRead),
    /// What the file holds. It stays until there was memory for its key.
    Text(Vec<u8>),
}

impl ProvideCredential for KeyProvider {
    type Credential = AccessKey;

    type Ctx = KeyContext;

    type Load = KeyLoad;

    ghost started = { λ provider ctx load. ⊤ };

    ghost ready = { λ provider ctx load. ⊥ };

    ghost gives = { λ provider ctx answer. ⊤ };

    fn provide_credential(&self, alloc: Global, ctx: &KeyContext) -> Result<KeyLoad, NoMemory<()>> {
        match self {
            KeyProvider::Environment => Ok(KeyLoad::Environment),
            KeyProvider::File(path) => Ok(KeyLoad::Reading(ctx.file_read(alloc, path)?)),
        }
    }

    fn poll_load(
        &self,
        alloc: Global,
        ctx: &KeyContext,
        load: &mut KeyLoad,
    ) -> Polled<Option<AccessKey>> {
        if let KeyLoad::Reading(read) = load {
            match ctx.poll_file_read(alloc, read) {
                Polled::Ready(text) => *load = KeyLoad::Text(text),
                Polled::Pending => return Polled::Pending,
                Polled::Failed(error) => return Polled::Failed(error),
                Polled::OutOfMemory => return Polled::OutOfMemory,
            }
        }
        let key = match load {
            KeyLoad::Text(text) => key_of_text(alloc, text.as_slice()),
            KeyLoad::Environment | KeyLoad::Reading(_) => key_of_environment(alloc, ctx),
        };
        match key {
            Ok(key) => Polled::Ready(key),
            Err(_) => Polled::OutOfMemory,
        }
    }
}

/// The environment first, and then this file.
fn environment_then_file(
    alloc: Global,
    path: &'static str,
) -> Result<ProvideCredentialChain<KeyProvider>, NoMemory<()>>
    ensures { IfOk result (λ chain. length chain ≡ 2) }
{
    let mut providers = Vec::with_capacity(alloc, 2)?;
    providers.push_reserved(KeyProvider::Environment);
    providers.push_reserved(KeyProvider::File(path));
    Ok(ProvideCredentialChain::from_vec(providers))
}

/// The key of the environment, where both variables are set.
fn key_of_environment(alloc: Global, ctx: &KeyContext) -> Result<Option<AccessKey>, NoMemory<()>> {
    let Some(id) = ctx.env_var(alloc, "ACCESS_KEY_ID")? else {
        return Ok(None);
    };
    let Some(secret) = ctx.env_var(alloc, "SECRET_ACCESS_KEY")? else {
        return Ok(None);
    };
    Ok(Some(AccessKey {
        id,
        secret,
        expires: None,
    }))
}

/// The key of a file, where the text is one.
fn key_of_text(alloc: Global, text: &[u8]) -> Result<Option<AccessKey>, NoMemory<()>> {
    let Some((id, secret, second)) = words_of_key(text) else {
        return Ok(None);
    };
    let Some(expires) = moment_of_second(alloc, second)? else {
        return Ok(None);
    };
    Ok(Some(AccessKey {
        id: String::from_str(alloc, id)?,
        secret: String::from_str(alloc, secret)?,
        expires: Some(expires),
    }))
}

/// The id, the secret and the second of a key, between spaces.
fn words_of_key(text: &[u8]) -> Option<(&str, &str, i64)> {
    let text = std::str::from_utf8(text).ok()?;
    let mut words = text.split(' ');
    let (id, secret) = (words.next()?, words.next()?);
    let second = words.next()?.parse::<i64>().ok()?;
    match words.next() {
        None => Some((id, secret, second)),
        Some(_) => None,
    }
}

/// The moment of a second, where it is one.
fn moment_of_second(alloc: Global, second: i64) -> Result<Option<Timestamp>, NoMemory<()>> {
    match Timestamp::from_second(alloc, second) {
        Ok(moment) => Ok(Some(moment)),
        Err(error) if error.kind() == ErrorKind::OutOfMemory => Err(NoMemory { back: () }),
        Err(_) => Ok(None),
    }
}

/// Signs by an HMAC of the request's canonical texts, in the header `authorization`.
#[derive(Clone, Copy, Debug)]
struct HeaderHmac;

/// The key has to last to the end of the operation.
impl DeadlineRule for HeaderHmac {
    type Credential = AccessKey;

    ghost deadline = { λ service key duration now. operation_end duration now };

    fn required_valid_until(
        &self,
        _credential: &AccessKey,
        expires_in: Option<Duration>,
        now: Timestamp,
    ) -> Option<Timestamp> {
        operation_end(expires_in, now)
    }
}

/// A signing that was begun, with its copy of the key.
#[derive(Drop)]
struct HmacWork {
    key: AccessKey,
}

impl SignRequest for HeaderHmac {
    type Ctx = KeyContext;

    type Work = HmacWork;

    // The work has the key that it was begun with.
    ghost started = { λ service ctx operation work. work.key ≡ operation.credential };

    // It needs nobody else, so it is never pending.
    ghost ready = { λ service ctx work. ⊤ };

    // The URI stays as it was begun.
    ghost gives = { λ service ctx operation head outcome. outcome.candidate.uri ≡ head.uri };

    fn sign_request(
        &self,
        alloc: Global,
        _ctx: &KeyContext,
        credential: &AccessKey,
        _expires_in: Option<Duration>,
    ) -> Result<HmacWork, NoMemory<()>> {
        Ok(HmacWork {
            key: credential.try_clone(alloc)?,
        })
    }

    fn poll_sign(
        &self,
        alloc: Global,
        _ctx: &KeyContext,
        work: &mut HmacWork,
        candidate: &mut Head,
    ) -> Polled<()> {
        match authorization(alloc, &work.key, candidate) {
            Ok(field) => match candidate.headers.push(field) {
                Ok(()) => Polled::Ready(()),
                Err(_) => Polled::OutOfMemory,
            },
            Err(error) if error.kind() == ErrorKind::OutOfMemory => Polled::OutOfMemory,
            Err(error) => Polled::Failed(error),
        }
    }
}

/// The header that signs this head.
fn authorization(alloc: Global, key: &AccessKey, head: &Head) -> Result<Field, Error> {
    let text = signed_text(alloc, head)?;
    Ok(header(alloc, key, text.as_bytes())?)
}

fn signed_text(alloc: Global, head: &Head) -> Result<String, Error> {
    let mut view = view_of(alloc, head)?;
    let text = canonical_text(alloc, &mut view);
    drop(view);
    Ok(text?)
}

fn view_of(alloc: Global, head: &Head) -> Result<SigningRequest, Error> {
    let parts = parts_of(alloc, head)?;
    let view = SigningRequest::build(alloc, &parts);
    drop(parts);
    view
}

/// What is signed of a request: method, authority, path and sorted query, a line each.
fn canonical_text(alloc: Global, view: &mut SigningRequest) -> Result<String, NoMemory<()>> {
    let query = std::mem::replace(&mut view.query, Vec::new(alloc));
    let query = query_text(alloc, query)?;
    lines_of(alloc, view, query.as_str())
}

/// The pairs of a query as one text, sorted.
fn query_text(alloc: Global, query: Vec<(String, String)>) -> Result<String, NoMemory<()>> {
    SigningRequest::query_to_string(alloc, query, "=", "&").map_err(|_| NoMemory { back: () })
}

fn lines_of(alloc: Global, view: &SigningRequest, query: &str) -> Result<String, NoMemory<()>> {
    let (method, authority, path) = (view.method.as_str(), view.authority.as_str(), &view.path);
    Ok(format!(in alloc; "{method}\n{authority}\n{path}\n{query}\n")?)
}

/// The header with the key's id and the HMAC of the text under its secret.
fn header(alloc: Global, key: &AccessKey, text: &[u8]) -> Result<Field, NoMemory<()>> {
    let hmac = hash::hex_hmac_sha256(alloc, key.secret.as_bytes(), text)?;
    let value = format!(in alloc; "HMAC {}:{hmac}", key.id)?;
    field(alloc, b"authorization", value.as_bytes())
}

fn field(alloc: Global, name: &[u8], value: &[u8]) -> Result<Field, NoMemory<()>> {
    Ok(Field {
        name: Octets::from_slice(alloc, name)?,
        value: Octets::from_slice(alloc, value)?,
    })
}

/// A context with the file and no variables.
fn key_context(alloc: Global) -> KeyContext {
    let env = StaticEnv {
        home_dir: None,
        envs: HashMap::new(alloc),
    };
    let file = KeyFile {
        path: "/keys",
        text: "me secret 1000",
    };
    Context::new().with_env(env).with_file_read(file)
}

/// A signer with the chain and the service.
fn key_signer(alloc: Global, path: &'static str) -> Option<Signer<KeyProvider, HeaderHmac>> {
    let chain = Providers::Chain(environment_then_file(alloc, path).ok()?);
    Signer::new(alloc, key_context(alloc), chain, HeaderHmac).ok()
}

/// What becomes of a call whose key stands in the file of this path.
fn told_by(alloc: Global, path: &'static str) -> Option<Told> {
    let mut signer = key_signer(alloc, path)?;
    let told = told_call(alloc, &mut signer, "https://example.com/a%2Fb?y=2&x=1", 5);
    drop(signer);
    told
}

/// Paths of files, and what is told of a call: its text, and its end.
static TOLD: [(&str, &str, &str); 2] = [
    (
        "/keys",
        "pending, done, GET https://example.com/a%2Fb?y=2&x=1 HTTP/1.1 {\"pin\": \"5551234\", \
            \"authorization\": \"HMAC me:",
        "e359a741623dc63f085e2aa8af69a333a750346530903cdce9ff1a89a0f82f94\"}",
    ),
    (
        "/no/keys",
        "pending, CredentialInvalid failed to load signing credential [\"credential_type: AccessKey\"], \
            GET https://example.com/a%2Fb?y=2&x=1 HTTP/1.1 ",
        r#"{"pin": "5551234"}"#,
    ),
];

/// The environment has no key, so the chain goes on to the file, which answers at its second poll. The
/// header is the one that another implementation of HMAC-SHA256 makes. Where no provider has a key, the call
/// is refused, and the refusal becomes an error.
#[test]
fn a_call_is_signed_with_the_key_of_a_file(rt: HostRuntime) {
    for (path, wanted, headers) in &TOLD {
        is_told(&rt, told_by(rt.alloc(), *path), *wanted, *headers);
    }
}
