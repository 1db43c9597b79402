//! Numbers of the protocol that definitions and code speak of by name (JDWP specification, "Protocol Details").

/// The command set VirtualMachine.
pub const VIRTUAL_MACHINE: u8 = 1;
/// The command set ReferenceType.
pub const REFERENCE_TYPE: u8 = 2;
/// The command set ClassType.
pub const CLASS_TYPE: u8 = 3;
/// The command set InterfaceType.
pub const INTERFACE_TYPE: u8 = 5;
/// The command set Method.
pub const METHOD: u8 = 6;
/// The command set ObjectReference.
pub const OBJECT_REFERENCE: u8 = 9;
/// The command set StringReference.
pub const STRING_REFERENCE: u8 = 10;
/// The command set ThreadReference.
pub const THREAD_REFERENCE: u8 = 11;
/// The command set ThreadGroupReference.
pub const THREAD_GROUP_REFERENCE: u8 = 12;
/// The command set ArrayReference.
pub const ARRAY_REFERENCE: u8 = 13;
/// The command set EventRequest.
pub const EVENT_REQUEST: u8 = 15;
/// The command set StackFrame.
pub const STACK_FRAME: u8 = 16;
/// The command set ModuleReference.
pub const MODULE_REFERENCE: u8 = 18;
/// The command set Event, of commands that a target sends. Those from 0 up to it go to the target.
pub const EVENT: u8 = 64;

/// VirtualMachine.Version.
pub const VERSION: u8 = 1;
/// VirtualMachine.ClassesBySignature.
pub const CLASSES_BY_SIGNATURE: u8 = 2;
/// VirtualMachine.AllClasses.
pub const ALL_CLASSES: u8 = 3;
/// VirtualMachine.AllThreads.
pub const ALL_THREADS: u8 = 4;
/// VirtualMachine.TopLevelThreadGroups.
pub const TOP_LEVEL_THREAD_GROUPS: u8 = 5;
/// VirtualMachine.Dispose.
pub const DISPOSE: u8 = 6;
/// VirtualMachine.IDSizes.
pub const ID_SIZES: u8 = 7;
/// VirtualMachine.Suspend.
pub const SUSPEND: u8 = 8;
/// VirtualMachine.Resume.
pub const RESUME: u8 = 9;
/// VirtualMachine.Exit.
pub const EXIT: u8 = 10;
/// VirtualMachine.CreateString.
pub const CREATE_STRING: u8 = 11;
/// VirtualMachine.Capabilities.
pub const CAPABILITIES: u8 = 12;
/// VirtualMachine.ClassPaths.
pub const CLASS_PATHS: u8 = 13;
/// VirtualMachine.DisposeObjects.
pub const DISPOSE_OBJECTS: u8 = 14;
/// VirtualMachine.HoldEvents.
pub const HOLD_EVENTS: u8 = 15;
/// VirtualMachine.ReleaseEvents.
pub const RELEASE_EVENTS: u8 = 16;
/// VirtualMachine.CapabilitiesNew.
pub const CAPABILITIES_NEW: u8 = 17;
/// VirtualMachine.AllClassesWithGeneric.
pub const ALL_CLASSES_WITH_GENERIC: u8 = 20;
/// VirtualMachine.AllModules.
pub const ALL_MODULES: u8 = 22;

/// ReferenceType.Signature.
pub const SIGNATURE: u8 = 1;
/// ReferenceType.ClassLoader.
pub const CLASS_LOADER: u8 = 2;
/// ReferenceType.Modifiers.
pub const MODIFIERS: u8 = 3;
/// ReferenceType.Fields.
pub const FIELDS: u8 = 4;
/// ReferenceType.Methods.
pub const METHODS: u8 = 5;
/// ReferenceType.GetValues, of static fields.
pub const GET_STATICS: u8 = 6;
/// ReferenceType.SourceFile.
pub const SOURCE_FILE: u8 = 7;
/// ReferenceType.Status.
pub const CLASS_STATUS: u8 = 9;
/// ReferenceType.Interfaces.
pub const INTERFACES: u8 = 10;
/// ReferenceType.SourceDebugExtension.
pub const SOURCE_DEBUG_EXTENSION: u8 = 12;
/// ReferenceType.SignatureWithGeneric.
pub const SIGNATURE_WITH_GENERIC: u8 = 13;
/// ReferenceType.FieldsWithGeneric.
pub const FIELDS_WITH_GENERIC: u8 = 14;
/// ReferenceType.MethodsWithGeneric.
pub const METHODS_WITH_GENERIC: u8 = 15;
/// ReferenceType.Module.
pub const CLASS_MODULE: u8 = 19;

/// ClassType.Superclass.
pub const SUPERCLASS: u8 = 1;
/// ClassType.InvokeMethod.
pub const CLASS_INVOKE: u8 = 3;
/// ClassType.NewInstance.
pub const NEW_INSTANCE: u8 = 4;

/// InterfaceType.InvokeMethod.
pub const INTERFACE_INVOKE: u8 = 1;

/// Method.LineTable.
pub const LINE_TABLE: u8 = 1;
/// Method.VariableTable.
pub const VARIABLE_TABLE: u8 = 2;
/// Method.IsObsolete.
pub const IS_OBSOLETE: u8 = 4;
/// Method.VariableTableWithGeneric.
pub const VARIABLE_TABLE_WITH_GENERIC: u8 = 5;

/// ObjectReference.ReferenceType.
pub const OBJECT_TYPE: u8 = 1;
/// ObjectReference.GetValues.
pub const GET_FIELDS: u8 = 2;
/// ObjectReference.InvokeMethod.
pub const OBJECT_INVOKE: u8 = 6;
/// ObjectReference.DisableCollection.
pub const DISABLE_COLLECTION: u8 = 7;
/// ObjectReference.EnableCollection.
pub const ENABLE_COLLECTION: u8 = 8;
/// ObjectReference.IsCollected.
pub const IS_COLLECTED: u8 = 9;

/// StringReference.Value.
pub const STRING_VALUE: u8 = 1;

/// ThreadReference.Name.
pub const THREAD_NAME: u8 = 1;
/// ThreadReference.Suspend.
pub const SUSPEND_THREAD: u8 = 2;
/// ThreadReference.Resume.
pub const RESUME_THREAD: u8 = 3;
/// ThreadReference.Status.
pub const THREAD_STATUS: u8 = 4;
/// ThreadReference.ThreadGroup.
pub const THREAD_GROUP: u8 = 5;
/// ThreadReference.Frames.
pub const FRAMES: u8 = 6;
/// ThreadReference.FrameCount.
pub const FRAME_COUNT: u8 = 7;
/// ThreadReference.OwnedMonitors.
pub const OWNED_MONITORS: u8 = 8;
/// ThreadReference.CurrentContendedMonitor.
pub const CONTENDED_MONITOR: u8 = 9;
/// ThreadReference.SuspendCount.
pub const SUSPEND_COUNT: u8 = 12;

/// ThreadGroupReference.Name.
pub const GROUP_NAME: u8 = 1;
/// ThreadGroupReference.Parent.
pub const GROUP_PARENT: u8 = 2;
/// ThreadGroupReference.Children.
pub const GROUP_CHILDREN: u8 = 3;

/// ArrayReference.Length.
pub const ARRAY_LENGTH: u8 = 1;
/// ArrayReference.GetValues.
pub const GET_ELEMENTS: u8 = 2;

/// EventRequest.Set.
pub const SET_REQUEST: u8 = 1;
/// EventRequest.Clear.
pub const CLEAR_REQUEST: u8 = 2;
/// EventRequest.ClearAllBreakpoints.
pub const CLEAR_ALL_BREAKPOINTS: u8 = 3;

/// StackFrame.GetValues.
pub const GET_SLOTS: u8 = 1;
/// StackFrame.SetValues.
pub const SET_SLOTS: u8 = 2;
/// StackFrame.ThisObject.
pub const THIS_OBJECT: u8 = 3;

/// ModuleReference.Name.
pub const MODULE_NAME: u8 = 1;
/// ModuleReference.ClassLoader.
pub const MODULE_CLASS_LOADER: u8 = 2;

/// Event.Composite.
pub const COMPOSITE: u8 = 100;
