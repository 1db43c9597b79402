//! Commands by name: the number of the set, and that of the command in it (JDWP specification, "Protocol Details").
use jdwp_layout::numbers;

/// VirtualMachine.Version.
pub const VERSION: (u8, u8) = (numbers::VIRTUAL_MACHINE, numbers::VERSION);
/// VirtualMachine.ClassesBySignature.
pub const CLASSES_BY_SIGNATURE: (u8, u8) = (
    numbers::VIRTUAL_MACHINE,
    numbers::CLASSES_BY_SIGNATURE,
);
/// VirtualMachine.AllClasses.
pub const ALL_CLASSES: (u8, u8) = (numbers::VIRTUAL_MACHINE, numbers::ALL_CLASSES);
/// VirtualMachine.AllThreads.
pub const ALL_THREADS: (u8, u8) = (numbers::VIRTUAL_MACHINE, numbers::ALL_THREADS);
/// VirtualMachine.TopLevelThreadGroups.
pub const TOP_LEVEL_THREAD_GROUPS: (u8, u8) = (
    numbers::VIRTUAL_MACHINE,
    numbers::TOP_LEVEL_THREAD_GROUPS,
);
/// VirtualMachine.Dispose.
pub const DISPOSE: (u8, u8) = (numbers::VIRTUAL_MACHINE, numbers::DISPOSE);
/// VirtualMachine.IDSizes.
pub const ID_SIZES: (u8, u8) = (numbers::VIRTUAL_MACHINE, numbers::ID_SIZES);
/// VirtualMachine.Suspend.
pub const SUSPEND: (u8, u8) = (numbers::VIRTUAL_MACHINE, numbers::SUSPEND);
/// VirtualMachine.Resume.
pub const RESUME: (u8, u8) = (numbers::VIRTUAL_MACHINE, numbers::RESUME);
/// VirtualMachine.Exit.
pub const EXIT: (u8, u8) = (numbers::VIRTUAL_MACHINE, numbers::EXIT);
/// VirtualMachine.Capabilities.
pub const CAPABILITIES: (u8, u8) = (numbers::VIRTUAL_MACHINE, numbers::CAPABILITIES);
/// VirtualMachine.DisposeObjects.
pub const DISPOSE_OBJECTS: (u8, u8) = (numbers::VIRTUAL_MACHINE, numbers::DISPOSE_OBJECTS);
/// VirtualMachine.HoldEvents.
pub const HOLD_EVENTS: (u8, u8) = (numbers::VIRTUAL_MACHINE, numbers::HOLD_EVENTS);
/// VirtualMachine.ReleaseEvents.
pub const RELEASE_EVENTS: (u8, u8) = (numbers::VIRTUAL_MACHINE, numbers::RELEASE_EVENTS);
/// VirtualMachine.CapabilitiesNew.
pub const CAPABILITIES_NEW: (u8, u8) = (numbers::VIRTUAL_MACHINE, numbers::CAPABILITIES_NEW);
/// VirtualMachine.AllClassesWithGeneric.
pub const ALL_CLASSES_WITH_GENERIC: (u8, u8) = (
    numbers::VIRTUAL_MACHINE,
    numbers::ALL_CLASSES_WITH_GENERIC,
);
/// VirtualMachine.AllModules.
pub const ALL_MODULES: (u8, u8) = (numbers::VIRTUAL_MACHINE, numbers::ALL_MODULES);
/// ReferenceType.Signature.
pub const SIGNATURE: (u8, u8) = (numbers::REFERENCE_TYPE, numbers::SIGNATURE);
/// ReferenceType.ClassLoader.
pub const CLASS_LOADER: (u8, u8) = (numbers::REFERENCE_TYPE, numbers::CLASS_LOADER);
/// ReferenceType.Modifiers.
pub const MODIFIERS: (u8, u8) = (numbers::REFERENCE_TYPE, numbers::MODIFIERS);
/// ReferenceType.Fields.
pub const FIELDS: (u8, u8) = (numbers::REFERENCE_TYPE, numbers::FIELDS);
/// ReferenceType.Methods.
pub const METHODS: (u8, u8) = (numbers::REFERENCE_TYPE, numbers::METHODS);
/// ReferenceType.GetValues.
pub const GET_STATICS: (u8, u8) = (numbers::REFERENCE_TYPE, numbers::GET_STATICS);
/// ReferenceType.SourceFile.
pub const SOURCE_FILE: (u8, u8) = (numbers::REFERENCE_TYPE, numbers::SOURCE_FILE);
/// ReferenceType.Status.
pub const CLASS_STATUS: (u8, u8) = (numbers::REFERENCE_TYPE, numbers::CLASS_STATUS);
/// ReferenceType.Interfaces.
pub const INTERFACES: (u8, u8) = (numbers::REFERENCE_TYPE, numbers::INTERFACES);
/// ReferenceType.SignatureWithGeneric.
pub const SIGNATURE_WITH_GENERIC: (u8, u8) = (
    numbers::REFERENCE_TYPE,
    numbers::SIGNATURE_WITH_GENERIC,
);
/// ReferenceType.FieldsWithGeneric.
pub const FIELDS_WITH_GENERIC: (u8, u8) = (numbers::REFERENCE_TYPE, numbers::FIELDS_WITH_GENERIC);
/// ReferenceType.MethodsWithGeneric.
pub const METHODS_WITH_GENERIC: (u8, u8) = (numbers::REFERENCE_TYPE, numbers::METHODS_WITH_GENERIC);
/// ReferenceType.Module.
pub const CLASS_MODULE: (u8, u8) = (numbers::REFERENCE_TYPE, numbers::CLASS_MODULE);
/// ClassType.Superclass.
pub const SUPERCLASS: (u8, u8) = (numbers::CLASS_TYPE, numbers::SUPERCLASS);
/// Method.LineTable.
pub const LINE_TABLE: (u8, u8) = (numbers::METHOD, numbers::LINE_TABLE);
/// Method.VariableTable.
pub const VARIABLE_TABLE: (u8, u8) = (numbers::METHOD, numbers::VARIABLE_TABLE);
/// Method.IsObsolete.
pub const IS_OBSOLETE: (u8, u8) = (numbers::METHOD, numbers::IS_OBSOLETE);
/// Method.VariableTableWithGeneric.
pub const VARIABLE_TABLE_WITH_GENERIC: (u8, u8) = (
    numbers::METHOD,
    numbers::VARIABLE_TABLE_WITH_GENERIC,
);
/// ObjectReference.ReferenceType.
pub const OBJECT_TYPE: (u8, u8) = (numbers::OBJECT_REFERENCE, numbers::OBJECT_TYPE);
/// ObjectReference.GetValues.
pub const GET_FIELDS: (u8, u8) = (numbers::OBJECT_REFERENCE, numbers::GET_FIELDS);
/// ObjectReference.DisableCollection.
pub const DISABLE_COLLECTION: (u8, u8) = (numbers::OBJECT_REFERENCE, numbers::DISABLE_COLLECTION);
/// ObjectReference.EnableCollection.
pub const ENABLE_COLLECTION: (u8, u8) = (numbers::OBJECT_REFERENCE, numbers::ENABLE_COLLECTION);
/// ObjectReference.IsCollected.
pub const IS_COLLECTED: (u8, u8) = (numbers::OBJECT_REFERENCE, numbers::IS_COLLECTED);
/// StringReference.Value.
pub const STRING_VALUE: (u8, u8) = (numbers::STRING_REFERENCE, numbers::STRING_VALUE);
/// ThreadReference.Name.
pub const THREAD_NAME: (u8, u8) = (numbers::THREAD_REFERENCE, numbers::THREAD_NAME);
/// ThreadReference.Suspend.
pub const SUSPEND_THREAD: (u8, u8) = (numbers::THREAD_REFERENCE, numbers::SUSPEND_THREAD);
/// ThreadReference.Resume.
pub const RESUME_THREAD: (u8, u8) = (numbers::THREAD_REFERENCE, numbers::RESUME_THREAD);
/// ThreadReference.Status.
pub const THREAD_STATUS: (u8, u8) = (numbers::THREAD_REFERENCE, numbers::THREAD_STATUS);
/// ThreadReference.ThreadGroup.
pub const THREAD_GROUP: (u8, u8) = (numbers::THREAD_REFERENCE, numbers::THREAD_GROUP);
/// ThreadReference.Frames.
pub const FRAMES: (u8, u8) = (numbers::THREAD_REFERENCE, numbers::FRAMES);
/// ThreadReference.FrameCount.
pub const FRAME_COUNT: (u8, u8) = (numbers::THREAD_REFERENCE, numbers::FRAME_COUNT);
/// ThreadReference.SuspendCount.
pub const SUSPEND_COUNT: (u8, u8) = (numbers::THREAD_REFERENCE, numbers::SUSPEND_COUNT);
/// ThreadGroupReference.Name.
pub const GROUP_NAME: (u8, u8) = (numbers::THREAD_GROUP_REFERENCE, numbers::GROUP_NAME);
/// ThreadGroupReference.Parent.
pub const GROUP_PARENT: (u8, u8) = (numbers::THREAD_GROUP_REFERENCE, numbers::GROUP_PARENT);
/// ThreadGroupReference.Children.
pub const GROUP_CHILDREN: (u8, u8) = (numbers::THREAD_GROUP_REFERENCE, numbers::GROUP_CHILDREN);
/// ArrayReference.Length.
pub const ARRAY_LENGTH: (u8, u8) = (numbers::ARRAY_REFERENCE, numbers::ARRAY_LENGTH);
/// ArrayReference.GetValues.
pub const GET_ELEMENTS: (u8, u8) = (numbers::ARRAY_REFERENCE, numbers::GET_ELEMENTS);
/// EventRequest.Set.
pub const SET_REQUEST: (u8, u8) = (numbers::EVENT_REQUEST, numbers::SET_REQUEST);
/// EventRequest.Clear.
pub const CLEAR_REQUEST: (u8, u8) = (numbers::EVENT_REQUEST, numbers::CLEAR_REQUEST);
/// EventRequest.ClearAllBreakpoints.
pub const CLEAR_ALL_BREAKPOINTS: (u8, u8) = (
    numbers::EVENT_REQUEST,
    numbers::CLEAR_ALL_BREAKPOINTS,
);
/// StackFrame.GetValues.
pub const GET_SLOTS: (u8, u8) = (numbers::STACK_FRAME, numbers::GET_SLOTS);
/// StackFrame.SetValues.
pub const SET_SLOTS: (u8, u8) = (numbers::STACK_FRAME, numbers::SET_SLOTS);
/// StackFrame.ThisObject.
pub const THIS_OBJECT: (u8, u8) = (numbers::STACK_FRAME, numbers::THIS_OBJECT);
/// ModuleReference.Name.
pub const MODULE_NAME: (u8, u8) = (numbers::MODULE_REFERENCE, numbers::MODULE_NAME);
/// ModuleReference.ClassLoader.
pub const MODULE_CLASS_LOADER: (u8, u8) = (numbers::MODULE_REFERENCE, numbers::MODULE_CLASS_LOADER);
/// Event.Composite.
pub const COMPOSITE: (u8, u8) = (numbers::EVENT, numbers::COMPOSITE);

/// ReferenceType.NestedTypes, which no machine of a script answers.
pub const NESTED_TYPES: (u8, u8) = (2, 8);
/// ReferenceType.Instances, which no machine of a script answers.
pub const INSTANCES: (u8, u8) = (2, 16);
/// ClassType.SetValues, which no machine of a script answers.
pub const SET_STATICS: (u8, u8) = (3, 2);
/// ArrayType.NewInstance, which no machine of a script answers.
pub const NEW_ARRAY: (u8, u8) = (4, 1);
/// Method.Bytecodes, which no machine of a script answers.
pub const BYTECODES: (u8, u8) = (6, 3);
/// ThreadReference.OwnedMonitors, which no machine of a script answers.
pub const OWNED_MONITORS: (u8, u8) = (11, 8);
