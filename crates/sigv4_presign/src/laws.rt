//! What follows for a caller from what the calls promise. Each function does nothing: its contract is
//! the law.
ghost use Rattle.std.specs.Prelude.{◌≡◌, ◌↔◌, ◌⊎◌, IsTrue, ℕ, ℤ, pos, ◌+ℤ◌, ◌-ℤ◌, ◌<ℤ◌, ◌≤ℤ◌, List, Some};
ghost use Rattle.sign_time.specs.MomentRead.{whole_second};
ghost use Rattle.sign_base.specs.declared.head.Head.{Head};
ghost use Rattle.sigv4_core.specs.Credential.{Credential};
ghost use Rattle.sigv4_core.specs.Scope.{Scope, is_scope};
ghost use Rattle.sigv4_presign.specs.CheckedLink.{checked, checked_within};
ghost use Rattle.sigv4_presign.specs.LinkClaims.{Names, IsSignerOf};
ghost use Rattle.sigv4_presign.specs.LinkDate.{moment_of_text, expires_of_text};
ghost use Rattle.sigv4_presign.specs.LinkLaw.{WasMade, IsGood, IsGoodWithin, expiry_of, AskTheSame};
ghost use Rattle.sigv4_presign.specs.LinkLaw.{IsRequestBy, IsDateOf, IsExpiryOf};
ghost use Rattle.sigv4_presign.specs.declared.checked.Checked.TheVariants as found;
ghost use Rattle.sigv4_presign.specs.declared.checked.Checked.TheVariants.{Early, Late, Valid};
ghost use Rattle.sigv4_presign.specs.declared.link_claims.LinkClaims.{LinkClaims};

/// A link that was made is valid, to the same credential and scope, exactly from its date on and
/// before it expires. Its date is the whole second at or before the moment at which it was made.
/// Before its date it is `Early`, and from its expiry on `Late`.
pub fn a_link_is_valid_for_its_time()
    ensures valid { (keys : Credential) (scope : Scope) (expires : ℕ) (now u : ℤ) (head link : Head)
        → WasMade keys scope expires now head link
        → (checked keys scope u link ≡ Valid) ↔ IsGood now expires u }
    ensures early { (keys : Credential) (scope : Scope) (expires : ℕ) (now u : ℤ) (head link : Head)
        → WasMade keys scope expires now head link
        → u <ℤ whole_second now → checked keys scope u link ≡ Early }
    ensures late { (keys : Credential) (scope : Scope) (expires : ℕ) (now u : ℤ) (head link : Head)
        → WasMade keys scope expires now head link
        → expiry_of now expires ≤ℤ u → checked keys scope u link ≡ Late }
{}

/// By a clock that may be wrong by so many nanoseconds a link is valid that much sooner, and that much
/// longer; before that it is `Early`, and after it `Late`. By one that is right the check is that without a
/// tolerance.
pub fn a_tolerance_widens_the_time_of_a_link()
    ensures none { (keys : Credential) (scope : Scope) (u : ℤ) (head : Head)
        → checked_within keys scope u 0 head ≡ checked keys scope u head }
    ensures valid { (keys : Credential) (scope : Scope) (expires : ℕ) (now u : ℤ) (tolerance : ℕ)
        (head link : Head) → WasMade keys scope expires now head link
        → (checked_within keys scope u tolerance link ≡ Valid) ↔ IsGoodWithin now expires tolerance u }
    ensures early { (keys : Credential) (scope : Scope) (expires : ℕ) (now u : ℤ) (tolerance : ℕ)
        (head link : Head) → WasMade keys scope expires now head link
        → (u +ℤ pos tolerance) <ℤ whole_second now → checked_within keys scope u tolerance link ≡ Early }
    ensures late { (keys : Credential) (scope : Scope) (expires : ℕ) (now u : ℤ) (tolerance : ℕ)
        (head link : Head) → WasMade keys scope expires now head link
        → expiry_of now expires ≤ℤ (u -ℤ pos tolerance) → checked_within keys scope u tolerance link ≡ Late }
{}

/// Who checks a link with the access key and for the scope that the link names is not told that it is
/// another's; who checks it with another access key, or for another scope, is told so, but where that scope
/// does not sign the path.
pub fn a_link_names_its_signer()
    ensures own { (keys : Credential) (scope : Scope) (u : ℤ) (head : Head) (claims : LinkClaims)
        → Names head claims → IsSignerOf claims keys.access scope
        → ¬ (checked keys scope u head ≡ found.Credential) }
    ensures own_within { (keys : Credential) (scope : Scope) (u : ℤ) (tolerance : ℕ) (head : Head)
        (claims : LinkClaims) → Names head claims → IsSignerOf claims keys.access scope
        → ¬ (checked_within keys scope u tolerance head ≡ found.Credential) }
    ensures other { (keys : Credential) (scope : Scope) (u : ℤ) (head : Head) (claims : LinkClaims)
        → Names head claims → IsTrue (is_scope scope.region scope.service)
        → ¬ (IsSignerOf claims keys.access scope)
        → (checked keys scope u head ≡ found.Path) ⊎ (checked keys scope u head ≡ found.Credential) }
{}

/// The check reads of a head its method and its URI, and of its headers whether `http` accepts them.
/// So a request by a link is checked as the head that `presign` answered, whatever its headers are and
/// its version: it is valid for the time of that.
pub fn a_check_reads_method_and_uri()
    ensures same { (keys : Credential) (scope : Scope) (u : ℤ) (head other : Head)
        → AskTheSame head other → checked keys scope u head ≡ checked keys scope u other }
    ensures within { (keys : Credential) (scope : Scope) (u : ℤ) (tolerance : ℕ) (head other : Head)
        → AskTheSame head other
        → checked_within keys scope u tolerance head ≡ checked_within keys scope u tolerance other }
    ensures request { (keys : Credential) (scope : Scope) (expires : ℕ) (now u : ℤ) (head link request : Head)
        → WasMade keys scope expires now head link → IsRequestBy link request
        → checked keys scope u request ≡ checked keys scope u link }
{}

/// A text is read as a date exactly where it is that of a whole second in the years 0000 to 9999, and as an
/// expiry exactly where it is a number of seconds that a link may be good for, in decimal.
pub fn a_date_and_an_expiry_are_as_printed()
    ensures date { (text : List ℕ) (t : ℤ) → (moment_of_text text ≡ Some t) ↔ IsDateOf text t }
    ensures expiry { (text : List ℕ) (seconds : ℕ)
        → (expires_of_text text ≡ Some seconds) ↔ IsExpiryOf text seconds }
{}
