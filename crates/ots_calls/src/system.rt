ghost use Rattle.std.specs.Prelude.{◌≡◌};
ghost use Rattle.std.specs.Str.{bytes_eq};
ghost use Rattle.ots_calls.specs.Exception.{system_id, system_named};

/// A system exception of CORBA.
#[derive(Clone, Copy, Debug)]
pub enum SystemException {
    /// UNKNOWN.
    Unknown,
    /// BAD_PARAM.
    BadParam,
    /// NO_MEMORY.
    NoMemory,
    /// IMP_LIMIT.
    ImpLimit,
    /// COMM_FAILURE.
    CommFailure,
    /// INV_OBJREF.
    InvObjref,
    /// NO_PERMISSION.
    NoPermission,
    /// INTERNAL.
    Internal,
    /// MARSHAL.
    Marshal,
    /// INITIALIZE.
    Initialize,
    /// NO_IMPLEMENT.
    NoImplement,
    /// BAD_TYPECODE.
    BadTypecode,
    /// BAD_OPERATION.
    BadOperation,
    /// NO_RESOURCES.
    NoResources,
    /// NO_RESPONSE.
    NoResponse,
    /// PERSIST_STORE.
    PersistStore,
    /// BAD_INV_ORDER.
    BadInvOrder,
    /// TRANSIENT.
    Transient,
    /// FREE_MEM.
    FreeMem,
    /// INV_IDENT.
    InvIdent,
    /// INV_FLAG.
    InvFlag,
    /// INTF_REPOS.
    IntfRepos,
    /// BAD_CONTEXT.
    BadContext,
    /// OBJ_ADAPTER.
    ObjAdapter,
    /// DATA_CONVERSION.
    DataConversion,
    /// OBJECT_NOT_EXIST.
    ObjectNotExist,
    /// TRANSACTION_REQUIRED.
    TransactionRequired,
    /// TRANSACTION_ROLLEDBACK.
    TransactionRolledBack,
    /// INVALID_TRANSACTION.
    InvalidTransaction,
    /// INV_POLICY.
    InvPolicy,
    /// CODESET_INCOMPATIBLE.
    CodesetIncompatible,
    /// REBIND.
    Rebind,
    /// TIMEOUT.
    Timeout,
    /// TRANSACTION_UNAVAILABLE.
    TransactionUnavailable,
    /// TRANSACTION_MODE.
    TransactionMode,
    /// BAD_QOS.
    BadQos,
    /// INVALID_ACTIVITY.
    InvalidActivity,
    /// ACTIVITY_COMPLETED.
    ActivityCompleted,
    /// ACTIVITY_REQUIRED.
    ActivityRequired,
}

/// The system exceptions.
const SYSTEM_EXCEPTIONS: [SystemException; 39] = [
    SystemException::Unknown,
    SystemException::BadParam,
    SystemException::NoMemory,
    SystemException::ImpLimit,
    SystemException::CommFailure,
    SystemException::InvObjref,
    SystemException::NoPermission,
    SystemException::Internal,
    SystemException::Marshal,
    SystemException::Initialize,
    SystemException::NoImplement,
    SystemException::BadTypecode,
    SystemException::BadOperation,
    SystemException::NoResources,
    SystemException::NoResponse,
    SystemException::PersistStore,
    SystemException::BadInvOrder,
    SystemException::Transient,
    SystemException::FreeMem,
    SystemException::InvIdent,
    SystemException::InvFlag,
    SystemException::IntfRepos,
    SystemException::BadContext,
    SystemException::ObjAdapter,
    SystemException::DataConversion,
    SystemException::ObjectNotExist,
    SystemException::TransactionRequired,
    SystemException::TransactionRolledBack,
    SystemException::InvalidTransaction,
    SystemException::InvPolicy,
    SystemException::CodesetIncompatible,
    SystemException::Rebind,
    SystemException::Timeout,
    SystemException::TransactionUnavailable,
    SystemException::TransactionMode,
    SystemException::BadQos,
    SystemException::InvalidActivity,
    SystemException::ActivityCompleted,
    SystemException::ActivityRequired,
];

/// Their repository ids, in the order of the variants.
const SYSTEM_IDS: [&[u8]; 39] = [
    b"IDL:omg.org/CORBA/UNKNOWN:1.0",
    b"IDL:omg.org/CORBA/BAD_PARAM:1.0",
    b"IDL:omg.org/CORBA/NO_MEMORY:1.0",
    b"IDL:omg.org/CORBA/IMP_LIMIT:1.0",
    b"IDL:omg.org/CORBA/COMM_FAILURE:1.0",
    b"IDL:omg.org/CORBA/INV_OBJREF:1.0",
    b"IDL:omg.org/CORBA/NO_PERMISSION:1.0",
    b"IDL:omg.org/CORBA/INTERNAL:1.0",
    b"IDL:omg.org/CORBA/MARSHAL:1.0",
    b"IDL:omg.org/CORBA/INITIALIZE:1.0",
    b"IDL:omg.org/CORBA/NO_IMPLEMENT:1.0",
    b"IDL:omg.org/CORBA/BAD_TYPECODE:1.0",
    b"IDL:omg.org/CORBA/BAD_OPERATION:1.0",
    b"IDL:omg.org/CORBA/NO_RESOURCES:1.0",
    b"IDL:omg.org/CORBA/NO_RESPONSE:1.0",
    b"IDL:omg.org/CORBA/PERSIST_STORE:1.0",
    b"IDL:omg.org/CORBA/BAD_INV_ORDER:1.0",
    b"IDL:omg.org/CORBA/TRANSIENT:1.0",
    b"IDL:omg.org/CORBA/FREE_MEM:1.0",
    b"IDL:omg.org/CORBA/INV_IDENT:1.0",
    b"IDL:omg.org/CORBA/INV_FLAG:1.0",
    b"IDL:omg.org/CORBA/INTF_REPOS:1.0",
    b"IDL:omg.org/CORBA/BAD_CONTEXT:1.0",
    b"IDL:omg.org/CORBA/OBJ_ADAPTER:1.0",
    b"IDL:omg.org/CORBA/DATA_CONVERSION:1.0",
    b"IDL:omg.org/CORBA/OBJECT_NOT_EXIST:1.0",
    b"IDL:omg.org/CORBA/TRANSACTION_REQUIRED:1.0",
    b"IDL:omg.org/CORBA/TRANSACTION_ROLLEDBACK:1.0",
    b"IDL:omg.org/CORBA/INVALID_TRANSACTION:1.0",
    b"IDL:omg.org/CORBA/INV_POLICY:1.0",
    b"IDL:omg.org/CORBA/CODESET_INCOMPATIBLE:1.0",
    b"IDL:omg.org/CORBA/REBIND:1.0",
    b"IDL:omg.org/CORBA/TIMEOUT:1.0",
    b"IDL:omg.org/CORBA/TRANSACTION_UNAVAILABLE:1.0",
    b"IDL:omg.org/CORBA/TRANSACTION_MODE:1.0",
    b"IDL:omg.org/CORBA/BAD_QOS:1.0",
    b"IDL:omg.org/CORBA/INVALID_ACTIVITY:1.0",
    b"IDL:omg.org/CORBA/ACTIVITY_COMPLETED:1.0",
    b"IDL:omg.org/CORBA/ACTIVITY_REQUIRED:1.0",
];

impl SystemException {
    /// The system exception of this repository id.
    #[tactic(auto, unfolding(crate::specs::Exception::system_named))]
    pub fn named(id: &[u8]) -> Option<SystemException>
        ensures { result ≡ system_named id.now }
    {
        for one in &SYSTEM_EXCEPTIONS {
            if has_id(*one, id) {
                return Some(*one);
            }
        }
        None
    }

    /// Its repository id.
    pub fn id(self) -> &'static [u8]
        ensures { result.now ≡ system_id self }
    {
        SYSTEM_IDS[self as usize]
    }
}

/// Whether the exception has this repository id.
fn has_id(one: SystemException, id: &[u8]) -> bool
    ensures { result ≡ bytes_eq id.now (system_id one) }
{
    id == one.id()
}
