//! The error of every call that can fail for more than out of memory: a kind to act on, a message,
//! the places it came through, whether to try again, and the error below it where there is one.
ghost use Rattle.std.specs.Prelude.{◌≡◌, ◌++◌, ◌∷◌, [], IfOk, IfErr, OnOk, OnErr, map, Some, option_map};
ghost use Rattle.std.specs.String.{string_bytes};
ghost use Rattle.sign_base.specs.Error.{new_error, texts_or_empty};
ghost use Rattle.sign_base.specs.declared.error_kind.ErrorKind.TheVariants.{CredentialInvalid};
ghost use Rattle.sign_base.specs.declared.error_kind.ErrorKind.TheVariants.{PermissionDenied};
ghost use Rattle.sign_base.specs.declared.error_kind.ErrorKind.TheVariants.{ConfigInvalid, RequestInvalid};
ghost use Rattle.sign_base.specs.declared.error_kind.ErrorKind.TheVariants.{RateLimited, Unexpected};
ghost use Rattle.sign_base.specs.declared.error_kind.ErrorKind.TheVariants.{OutOfMemory};

use crate::{ErrorKind, NoMemory};
use std::alloc::Global;
use std::fmt;
use std::marker::Model;

/// An error.
///
/// An empty message and an empty context keep no memory, so out of memory is reported without any.
pub struct Error {
    kind: ErrorKind,
    message: Option<String>,
    context: Option<Vec<String>>,
    retryable: bool,
    source: Option<anyhow::Error>,
}

/// By one call: derived, each part is dropped wherever a value is.
impl Drop for Error {
    fn drop(self) {
        let Error {
            kind: _,
            message,
            context,
            retryable: _,
            source,
        } = self;
        drop(message);
        drop(context);
        drop(source);
    }
}

impl Model for Error {
    ghost use Rattle.sign_base.specs.Error.{ErrorParts, text_or_empty, texts_or_empty};

    ghost Value = { ErrorParts };

    ghost view = { λ e. record {
      kind = e.kind;
      message = text_or_empty e.message;
      context = texts_or_empty e.context;
      retryable = e.retryable;
      source = e.source;
    } };
}

impl Error {
    /// An error of this kind, retryable where a limit on the rate was met.
    pub fn new(alloc: Global, kind: ErrorKind, message: &str) -> Result<Error, NoMemory<()>>
        ensures { IfOk result (λ e. e ≡ new_error kind message.now) }
    {
        Ok(Error::of(kind, String::from_str(alloc, message)?))
    }

    /// The same with the message itself, which takes no memory.
    pub fn of(kind: ErrorKind, message: String) -> Error
        ensures { result ≡ new_error kind (string_bytes message) }
    {
        Error {
            kind,
            message: Some(message),
            context: None,
            retryable: kind == ErrorKind::RateLimited,
            source: None,
        }
    }

    /// Credentials that were given and are not good.
    pub fn credential_invalid(alloc: Global, message: &str) -> Result<Error, NoMemory<()>>
        ensures { IfOk result (λ e. e ≡ new_error CredentialInvalid message.now) }
    {
        Error::new(alloc, ErrorKind::CredentialInvalid, message)
    }

    /// Credentials that do not allow this.
    pub fn permission_denied(alloc: Global, message: &str) -> Result<Error, NoMemory<()>>
        ensures { IfOk result (λ e. e ≡ new_error PermissionDenied message.now) }
    {
        Error::new(alloc, ErrorKind::PermissionDenied, message)
    }

    /// A setting that is missing or makes no sense.
    pub fn config_invalid(alloc: Global, message: &str) -> Result<Error, NoMemory<()>>
        ensures { IfOk result (λ e. e ≡ new_error ConfigInvalid message.now) }
    {
        Error::new(alloc, ErrorKind::ConfigInvalid, message)
    }

    /// A request that cannot be signed as it is.
    pub fn request_invalid(alloc: Global, message: &str) -> Result<Error, NoMemory<()>>
        ensures { IfOk result (λ e. e ≡ new_error RequestInvalid message.now) }
    {
        Error::new(alloc, ErrorKind::RequestInvalid, message)
    }

    /// Too many requests; retryable.
    pub fn rate_limited(alloc: Global, message: &str) -> Result<Error, NoMemory<()>>
        ensures { IfOk result (λ e. e ≡ new_error RateLimited message.now) }
    {
        Error::new(alloc, ErrorKind::RateLimited, message)
    }

    /// Anything else.
    pub fn unexpected(alloc: Global, message: &str) -> Result<Error, NoMemory<()>>
        ensures { IfOk result (λ e. e ≡ new_error Unexpected message.now) }
    {
        Error::new(alloc, ErrorKind::Unexpected, message)
    }

    /// Out of memory, reported without memory.
    pub fn out_of_memory() -> Error
        ensures { result ≡ new_error OutOfMemory [] }
    {
        Error {
            kind: ErrorKind::OutOfMemory,
            message: None,
            context: None,
            retryable: false,
            source: None,
        }
    }

    /// The same error over this source, in place of the one it had.
    pub fn with_source(self, source: anyhow::Error) -> Error
        ensures { result ≡ record self { source = Some source } }
    {
        let Error {
            kind,
            message,
            context,
            retryable,
            source: old,
        } = self;
        drop(old);
        Error {
            kind,
            message,
            context,
            retryable,
            source: Some(source),
        }
    }

    /// The same error with one text more, the last that it came through. Where there is no memory
    /// for the text, the error comes back as it was.
    pub fn with_context(mut self, alloc: Global, context: &str) -> Result<Error, NoMemory<Error>>
        ensures ok { IfOk result (λ e. e ≡ record self { context = self.context ++ context.now ∷ [] }) }
        ensures back { IfErr result (λ e. e.back ≡ self) }
    {
        match push_text(alloc, &mut self.context, context) {
            Ok(()) => Ok(self),
            Err(_) => Err(NoMemory { back: self }),
        }
    }

    /// The same error, retryable or not.
    pub fn set_retryable(mut self, retryable: bool) -> Error
        ensures { result ≡ record self { retryable = retryable } }
    {
        self.retryable = retryable;
        self
    }

    pub fn kind(&self) -> ErrorKind
        ensures { result ≡ self.now.kind }
    {
        self.kind
    }

    /// What `Display` prints.
    pub(crate) fn message(&self) -> &str
        ensures { result.now ≡ self.now.message }
    {
        match &self.message {
            Some(text) => text.as_str(),
            None => "",
        }
    }

    /// Whether the same call may pass later.
    pub fn is_retryable(&self) -> bool
        ensures { result ≡ self.now.retryable }
    {
        self.retryable
    }

    /// What the error came through, the first first.
    pub fn context(&self) -> &[String]
        ensures { map string_bytes result.now ≡ self.now.context }
    {
        match &self.context {
            Some(texts) => texts.as_slice(),
            None => &[],
        }
    }

    /// The error below this one.
    pub fn source_error(&self) -> Option<&anyhow::Error>
        ensures { option_map (λ e. e.now) result ≡ self.now.source }
    {
        self.source.as_ref()
    }
}

impl From<NoMemory<()>> for Error {
    ghost from_gives = { λ _ e. e ≡ new_error OutOfMemory [] };

    fn from(_: NoMemory<()>) -> Error {
        Error::out_of_memory()
    }
}

impl fmt::Display for Error {
    ghost output = { λ e. Some e.message };

    fn fmt<W: fmt::Write>(&self, f: &mut fmt::Formatter<W>) -> fmt::Result {
        f.write_str(self.message())
    }
}

impl fmt::Debug for Error {
    fn fmt<W: fmt::Write>(&self, f: &mut fmt::Formatter<W>) -> fmt::Result {
        let mut parts = f.debug_struct("Error");
        parts.field("kind", &self.kind);
        parts.field("message", &self.message());
        if let Some(texts) = &self.context {
            parts.field("context", texts);
        }
        if let Some(source) = &self.source {
            parts.field("source", source);
        }
        parts.field("retryable", &self.retryable);
        parts.finish()
    }
}

/// Appends a text to texts that take no memory while there are none.
fn push_text(alloc: Global, texts: &mut Option<Vec<String>>, text: &str) -> Result<(), NoMemory<()>>
    ensures ok { OnOk result (texts_or_empty texts.new ≡ texts_or_empty texts.old ++ text.now ∷ []) }
    ensures err { OnErr result (texts_or_empty texts.new ≡ texts_or_empty texts.old) }
{
    let text = String::from_str(alloc, text)?;
    match texts {
        Some(texts) => texts.push(text)?,
        None => {
            let mut first = Vec::new(alloc);
            first.push(text)?;
            *texts = Some(first);
        }
    }
    Ok(())
}
